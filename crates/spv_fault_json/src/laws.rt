//! Worked examples. Each function does nothing: its contract is what is proved.

ghost use Rattle.std.specs.Prelude.{◌≡◌, ◌∷◌, [], None, Some, codes, true};
ghost use Rattle.json.specs.Token.{begin_array, begin_object, boolean, end_array, end_object, key as name, null};
ghost use Rattle.json.specs.Token.{number, string};
ghost use Rattle.spv_module.specs.Example.{small, string as one_string};
ghost use Rattle.spv_facts.specs.declared.fact.Fact.TheVariants as fact;
ghost use Rattle.spv_facts.specs.declared.fact.Thing.TheVariants as thing;
ghost use Rattle.spv_fault_json.specs.Members.{member_of};
ghost use Rattle.spv_fault_json.specs.Quiet.{quiet_of};

/// Members of facts, of a module that has the one instruction %5 = OpString "abc".
pub fn member_examples()
    ensures bound { member_of small [] [] (fact.Bound 9) ≡ name (codes "bound") ∷ number (codes "9") ∷ [] }
    ensures not_text { ¬ (member_of small [] [] (fact.Bound 9) ≡ name (codes "bound") ∷ string (codes "9") ∷ []) }
    // An instruction has its number and its line.
    ensures earlier { member_of small (one_string ∷ []) (codes "%5 = OpString \"abc\"" ∷ []) (fact.Earlier 0)
        ≡ name (codes "earlier") ∷ begin_object ∷ name (codes "inst") ∷ number (codes "0") ∷ name (codes "text")
        ∷ string (codes "%5 = OpString \"abc\"") ∷ end_object ∷ [] }
    // An operand has its number, and the id that it is.
    ensures operand { member_of small (one_string ∷ []) [] (fact.Operand 0 0)
        ≡ name (codes "operand") ∷ begin_object ∷ name (codes "index") ∷ number (codes "0") ∷ name (codes "id")
        ∷ number (codes "5") ∷ end_object ∷ [] }
    // What may come is a list of names, and that the module may end a member more.
    ensures coming { member_of small [] [] (fact.MayCome (7 ∷ 21 ∷ []) true)
        ≡ name (codes "mayComeNext") ∷ begin_array ∷ string (codes "OpString") ∷ string (codes "OpTypeInt")
        ∷ end_array ∷ name (codes "mayEnd") ∷ boolean true ∷ [] }
    // Types are one member.
    ensures types { member_of small [] [] (fact.Types (thing.Id 3 ∷ thing.Nothing ∷ []))
        ≡ name (codes "types") ∷ begin_array ∷ begin_object ∷ name (codes "id") ∷ number (codes "3") ∷ end_object
        ∷ null ∷ end_array ∷ [] }
    // Where there is no greatest count, it is null.
    ensures no_count { member_of small [] [] (fact.Most None) ≡ name (codes "most") ∷ null ∷ [] }
    ensures not_zero { ¬ (member_of small [] [] (fact.Most None) ≡ name (codes "most") ∷ number (codes "0") ∷ []) }
{}

/// JSON texts without control characters.
pub fn quiet_examples()
    // DEL, and U+009B, which is two bytes.
    ensures delete { quiet_of (34 ∷ 127 ∷ 34 ∷ []) ≡ codes "\"\\u007f\"" }
    ensures late { quiet_of (97 ∷ 194 ∷ 155 ∷ 97 ∷ []) ≡ codes "a\\u009ba" }
    ensures not_late { ¬ (quiet_of (194 ∷ 155 ∷ []) ≡ 194 ∷ 155 ∷ []) }
    // U+00A9 is none.
    ensures kept { quiet_of (194 ∷ 169 ∷ []) ≡ 194 ∷ 169 ∷ [] }
{}
