//! Laws of the definitions, and worked examples. Each function does nothing: its contract is what is proved.

ghost use Rattle.std.specs.Prelude.{◌≡◌, ◌<◌, ℕ, List, [], ◌∷◌, Some, None, codes, length, true, MatchOption};
ghost use Rattle.spv_module.specs.Operand.{Id, Number, OfType, PlainInst, Result, Word};
ghost use Rattle.spv_module.specs.declared.opcode.TheConstants as opcode;
ghost use Rattle.spv_layout.specs.Layout.{IsLayout, classes};
ghost use Rattle.spv_layout.specs.Place.{IsOfFunction, IsOfBlock};
ghost use Rattle.spv_layout.specs.Example.{bare, small_function};
ghost use Rattle.spv_words.specs.declared.words.WordError.TheVariants.{W3, W4};
ghost use Rattle.spv_evidence.specs.declared.condition.Condition.TheVariants as condition;
ghost use Rattle.spv_evidence.specs.declared.evidence.Evidence.TheVariants as evidence;
ghost use Rattle.spv_evidence.specs.declared.evidence.Lister.TheVariants as lister;
ghost use Rattle.spv_type_kinds.specs.declared.kinds.Object.TheVariants as object;
ghost use Rattle.spv_type_kinds.specs.declared.kinds.Images.TheVariants as images;
ghost use Rattle.spv_type_kinds.specs.declared.kinds.Kind.TheVariants as kind;
ghost use Rattle.spv_type_kinds.specs.declared.kinds.Relation.TheVariants as relation;
ghost use Rattle.spv_facts.specs.Conditions.{condition_text, image_text, kind_text, object_text};
ghost use Rattle.spv_facts.specs.Conditions.{pointer_text, relation_text};
ghost use Rattle.spv_facts.specs.Facts.{evidence_facts, lack_facts, lister_facts};
ghost use Rattle.spv_facts.specs.Keys.{line_name, member_name};
ghost use Rattle.spv_facts.specs.Example.{vector};
ghost use Rattle.spv_facts.specs.Owners.{operand_type, own_place, places_from, places_in, short_number, size_in};
ghost use Rattle.spv_facts.specs.Owners.{size_of, tells_size, types_at, without};
ghost use Rattle.spv_facts.specs.Place.{nowhere, place_of};
ghost use Rattle.spv_facts.specs.Refused.{front_of, help_text};
ghost use Rattle.spv_facts.specs.Shapes.{row_text};
ghost use Rattle.spv_facts.specs.Versions.{extensions_of, first_version, since_text};
ghost use Rattle.spv_facts.specs.declared.fact.Fact.TheVariants as fact;
ghost use Rattle.spv_facts.specs.declared.key.Key.TheVariants as keys;

/// Where instructions are laid out as a module, the place that opcodes alone give is that of the layout: the function
/// and the block that an instruction is of, and none where it is of none.
pub fn places()
    ensures function { (is : List PlainInst) (n : ℕ) → IsLayout (classes is) → n < length is
        → MatchOption (place_of is n).function ((f : ℕ) → ¬ (IsOfFunction is n f)) (λ f. IsOfFunction is n f) }
    ensures block { (is : List PlainInst) (n : ℕ) → IsLayout (classes is) → n < length is
        → MatchOption (place_of is n).block ((b : ℕ) → ¬ (IsOfBlock is n b)) (λ b. IsOfBlock is n b) }
{}

/// A function with a block, and a line after it.
pub fn place_examples()
    // The OpReturn is of the function and of the block, and not of none.
    ensures block { place_of small_function 3 ≡ record { function = Some 0; block = Some 1 } }
    ensures not_nowhere { ¬ (place_of small_function 3 ≡ nowhere) }
    // The OpFunctionEnd is of the function alone.
    ensures end { place_of small_function 4 ≡ record { function = Some 0; block = None } }
    // The line after it is of none.
    ensures after { place_of small_function 5 ≡ nowhere }
{}

/// The operands that rows ask for, in words. OpTypeMatrix has no row.
pub fn row_examples()
    ensures load { row_text opcode.LOAD true
        ≡ codes "result type, result, value, MemoryAccess or nothing, any others" }
    ensures phi { row_text opcode.PHI true ≡ codes "result type, result, any number of: value, label" }
    ensures bare { row_text opcode.RETURN true ≡ codes "no operands" }
    ensures unknown { row_text 24 true ≡ codes "none" }
    ensures not_other { ¬ (row_text opcode.RETURN true ≡ codes "value") }
{}

/// Keys as they are written: with spaces in lines, and as one word in JSON.
pub fn key_examples()
    ensures line { line_name keys.MayCome ≡ codes "may come" }
    ensures member { member_name keys.MayCome ≡ codes "mayComeNext" }
    ensures not_member { ¬ (member_name keys.NeedsOneOf ≡ codes "needs one of") }
    ensures way { line_name keys.OnTheWay ≡ codes "on the way" }
    ensures way_member { member_name keys.OnTheWay ≡ codes "onTheWay" }
    ensures used { line_name keys.UsedBy ≡ codes "used by" }
    ensures used_member { member_name keys.UsedBy ≡ codes "usedBy" }
    // Types have one member, and a line each.
    ensures types { member_name keys.Type ≡ codes "types" }
{}

/// What lists capabilities at an OpTypeInt, an OpTypeVector or an OpTypeImage: its width, operand 1, its count, operand
/// 2, or its access qualifier, operand 8.
pub fn lister_examples()
    ensures width { lister_facts (bare opcode.TYPE_INT ∷ []) 0 lister.Width ≡ fact.Operand 0 1 ∷ [] }
    ensures count { lister_facts (bare opcode.TYPE_VECTOR ∷ []) 0 lister.Width ≡ fact.Operand 0 2 ∷ [] }
    ensures not_width { ¬ (lister_facts (bare opcode.TYPE_VECTOR ∷ []) 0 lister.Width ≡ fact.Operand 0 1 ∷ []) }
    ensures access { lister_facts (bare opcode.TYPE_IMAGE ∷ []) 0 lister.Access ≡ fact.Operand 0 8 ∷ [] }
    // An image type itself is no operand, nor is the entry of an opcode.
    ensures image { lister_facts (bare opcode.TYPE_IMAGE ∷ []) 0 lister.Type ≡ [] }
    ensures entry { lister_facts (bare opcode.TYPE_INT ∷ []) 0 lister.Entry ≡ [] }
    // Where a version lacks it, the opcode is told.
    ensures lacked { lack_facts (bare opcode.TYPE_INT ∷ []) 0 lister.Entry ≡ fact.Opcode opcode.TYPE_INT ∷ [] }
    ensures not_operand { ¬ (lack_facts (bare opcode.TYPE_INT ∷ []) 0 (lister.Value 1) ≡ fact.Opcode opcode.TYPE_INT ∷ []) }
{}

/// What is told of the interface of the OpEntryPoint that is instruction 3.
pub fn interface_examples()
    // A variable that is not in it: its definition, a chain of two functions, and what uses it in the second one.
    ensures missing { evidence_facts [] 3 (evidence.NotInInterface 8 (9 ∷ 14 ∷ []) 16)
        ≡ fact.Defined 8 ∷ fact.Calls (9 ∷ 14 ∷ []) ∷ fact.UsedBy 16 ∷ [] }
    ensures not_alone { ¬ (evidence_facts [] 3 (evidence.NotInInterface 8 (9 ∷ []) 11) ≡ fact.Defined 8 ∷ []) }
    // An id that stands in it twice.
    ensures twice { evidence_facts [] 3 (evidence.Pair 3 4) ≡ fact.Operand 3 3 ∷ fact.OtherOperand 3 4 ∷ [] }
{}

/// What lines of the table of versions tell. Line 5 is of the opcodes 5632 and 5633, and the last but one of decoration
/// 5636, which no version has.
pub fn version_examples()
    ensures since { first_version 5 ≡ Some 4 }
    ensures extensions { extensions_of 5
        ≡ codes "SPV_GOOGLE_decorate_string" ∷ codes "SPV_GOOGLE_hlsl_functionality1" ∷ [] }
    ensures no_version { first_version 95 ≡ None }
    ensures no_extensions { ¬ (extensions_of 95 ≡ []) }
    ensures written { since_text 4 ≡ codes "1.4" }
    ensures not_number { ¬ (since_text 4 ≡ codes "4") }
{}

/// Conditions in words.
pub fn condition_examples()
    ensures bytes { kind_text kind.Int8Pointer ≡ codes "its type is a pointer to an int of width 8" }
    ensures across { relation_text relation.Across ≡ codes
        "its type and the wanted one are pointers, one of the storage class Workgroup and one of CrossWorkgroup" }
    ensures sizes { condition_text condition.LocalSizes
        ≡ codes "each value after the block is an int or a pointer to an int" }
    ensures not_sizes { ¬ (condition_text condition.Block ≡ condition_text condition.Locals) }
    ensures queue { object_text object.Queue ≡ codes "its type is a queue type" }
    ensures no_queue { ¬ (object_text object.Queue ≡ pointer_text object.Queue) }
    ensures flat { image_text images.Flat ≡ codes "its type is an image type whose images have one size" }
    ensures not_sized { ¬ (image_text images.Sized ≡ image_text images.Leveled) }
{}

/// What makes a module of bytes that are none.
pub fn help_examples()
    // `BC`, 0xC0 and 0xDE, and the wrapper's magic number.
    ensures bitcode { help_text W4 (front_of (66 ∷ 67 ∷ 192 ∷ 222 ∷ []))
        ≡ Some (codes "it begins as LLVM bitcode, of which llvm-spirv makes a module") }
    ensures wrapper { help_text W3 (front_of (222 ∷ 192 ∷ 23 ∷ 11 ∷ []))
        ≡ Some (codes "it begins as LLVM bitcode, of which llvm-spirv makes a module") }
    // `; SP`.
    ensures text { help_text W4 (front_of (59 ∷ 32 ∷ 83 ∷ 80 ∷ []))
        ≡ Some (codes "it begins as a text, of which spv asm makes a module") }
    // What an ELF file begins with is neither: its first byte is 127.
    ensures neither { help_text W4 (front_of (127 ∷ 69 ∷ 76 ∷ 70 ∷ [])) ≡ None }
    ensures not_text { ¬ (help_text W4 (front_of (127 ∷ 69 ∷ 76 ∷ 70 ∷ []))
        ≡ Some (codes "it begins as a text, of which spv asm makes a module")) }
{}

/// Whose types are that are told, and how many parts they have.
pub fn owner_examples()
    // Where the types of operands are %5, none, %6 and %5, operands 0 and 3 are of %5; of no type none is.
    ensures places { places_from 5 0 (Some 5 ∷ None ∷ Some 6 ∷ Some 5 ∷ []) ≡ 0 ∷ 3 ∷ [] }
    ensures no_places { ¬ (places_from 5 0 (Some 6 ∷ []) ≡ 0 ∷ []) }
    ensures all { places_in (Some 6) (Some 5 ∷ Some 6 ∷ []) ≡ 1 ∷ [] }
    ensures not_all { ¬ (places_in None (Some 5 ∷ []) ≡ 0 ∷ []) }
    // Without that of operand 1; without that of none all are left.
    ensures less { without (Some 1) (Some 5 ∷ Some 6 ∷ []) ≡ Some 5 ∷ None ∷ [] }
    ensures not_less { ¬ (without None (Some 5 ∷ []) ≡ None ∷ []) }
    // Operand 0 is of %5, and there is no operand 1.
    ensures own { own_place 5 (Some 0) (Some 5 ∷ []) ≡ 0 ∷ [] }
    ensures not_own { ¬ (own_place 5 (Some 1) (Some 5 ∷ []) ≡ 1 ∷ []) }
    // An id that nothing defines stands for itself, as a type does; a word is of no type.
    ensures id { operand_type [] (Id 7) ≡ Some 7 }
    ensures no_type { ¬ (operand_type [] (Word 7) ≡ Some 7) }
    ensures types { types_at (vector ∷ []) 0 ≡ None ∷ Some 2 ∷ None ∷ [] }
    ensures no_types { ¬ (types_at (vector ∷ []) 1 ≡ None ∷ Some 2 ∷ None ∷ []) }
    // A vector of four, and a constant of 64 bits that is above 4294967295.
    ensures parts { size_in [] vector ≡ Some 4 }
    ensures no_parts { ¬ (size_of [] 3 ≡ Some 4) }
    ensures short { short_number (OfType 1 ∷ Result 2 ∷ Number 7 0 1 ∷ []) ≡ Some 7 }
    ensures not_short { ¬ (short_number (OfType 1 ∷ Result 2 ∷ Number 7 1 2 ∷ []) ≡ Some 7) }
    // How many parts it has is told of a type in which a component is chosen, and not of the type of weights.
    ensures sized { tells_size condition.Within ≡ true }
    ensures not_sized { ¬ (tells_size condition.Weights ≡ true) }
{}
