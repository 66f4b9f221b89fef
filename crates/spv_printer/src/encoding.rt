//! Laws of encoding. Each function does nothing: its contract is what is proved.

ghost use Rattle.std.specs.Prelude.{◌≡◌, ◌≤◌, ◌+◌, ℕ, List, [], ◌∷◌, drop, length};
ghost use Rattle.spv_words.specs.Header.{IsHeader, greatest_length};
ghost use Rattle.spv_table.specs.Table.{Table};
ghost use Rattle.spv_module.specs.Operand.{PlainInst, Result, Text};
ghost use Rattle.spv_module.specs.Instruction.{IsListing};
ghost use Rattle.spv_module.specs.Module.{plain_insts};
ghost use Rattle.spv_inst.specs.Outcome.{IsDecodeFault, IsHeaderOf};
ghost use Rattle.spv_module.specs.declared.fault.Stop.{Stop};
ghost use Rattle.spv_module.specs.declared.fault.Stop.TheVariants.{Memory};
ghost use Rattle.spv_module.specs.declared.module.Module.{Module};
ghost use Rattle.spv_printer.specs.declared.encode_error.EncodeCode.{EncodeCode};
ghost use Rattle.spv_printer.specs.declared.encode_error.EncodeCode.TheVariants.{N2};
ghost use Rattle.spv_printer.specs.declared.encode_error.EncodeCode.TheVariants as refusal;
ghost use Rattle.spv_module.specs.Example.{small, string};
ghost use Rattle.spv_inst.specs.Limits.{HeaderFits};
ghost use Rattle.spv_printer.specs.Encoding.{IsTooLong, IsImageOf, RefusesModule, StopsAt};

/// Where words spell a list of instructions and are not too many, the list stops at none. So a module that was decoded
/// is encoded again, or memory runs out.
pub fn listed_or_stopped()
    ensures { (G : Table) (is : List PlainInst) (ws : List ℕ) (code : EncodeCode) (n : ℕ) → IsListing G is ws
        → 5 + length ws ≤ greatest_length → ¬ (StopsAt G is code n) }
{}

/// A list of instructions stops at one instruction at most, with one code.
pub fn one_stop()
    ensures { (G : Table) (is : List PlainInst) (a b : EncodeCode) (k l : ℕ) → StopsAt G is a k → StopsAt G is b l
        → (a ≡ b) × (k ≡ l) }
{}

/// A module has one image at most.
pub fn one_image()
    ensures { (G : Table) (m : Module) (ws vs : List ℕ) → IsImageOf G m ws → IsImageOf G m vs → ws ≡ vs }
{}

/// Where a module has an image, only memory that runs out refuses it.
pub fn image_or_refused()
    ensures { (G : Table) (m : Module) (ws : List ℕ) (code : EncodeCode) (n : ℕ) → IsImageOf G m ws
        → length ws ≤ greatest_length → RefusesModule code G m n → code ≡ refusal.Memory }
{}

/// What is encoded is decoded again: of a module's image `decode` may answer that module, or that memory ran out, and
/// nothing else.
pub fn decodes_back()
    ensures same { (G : Table) (m d : Module) (ws : List ℕ) → IsImageOf G m ws
        → IsListing G (plain_insts d) (drop 5 ws) → IsHeaderOf ws d.header → (plain_insts d ≡ plain_insts m)
        × (d.header ≡ m.header) }
    ensures sound { (G : Table) (m : Module) (ws : List ℕ) (stop : Stop) → IsImageOf G m ws
        → IsDecodeFault G ws stop → stop ≡ Memory }
{}

/// What is decoded is encoded again: of the module that an image's words spell `encode` may answer that image, or
/// `Memory`, and nothing else.
pub fn encodes_back()
    ensures same { (G : Table) (m : Module) (ws vs : List ℕ) → IsHeader ws
        → IsListing G (plain_insts m) (drop 5 ws) → IsHeaderOf ws m.header → IsImageOf G m vs → vs ≡ ws }
    ensures taken { (G : Table) (m : Module) (ws : List ℕ) (code : EncodeCode) (n : ℕ) → IsHeader ws
        → length ws ≤ greatest_length → IsListing G (plain_insts m) (drop 5 ws) → IsHeaderOf ws m.header
        → RefusesModule code G m n → code ≡ refusal.Memory }
{}

/// Worked examples, under a small table.
pub fn encoding_examples()
    // A header of version 1.6 with bound 5; then one with bound 0.
    ensures header { HeaderFits (record { version = 67072; generator = 0; bound = 5; schema = 0 }) }
    ensures no_bound { ¬ (HeaderFits (record { version = 67072; generator = 0; bound = 0; schema = 0 })) }
    // `OpString` of a text with a zero octet has no words; that of "abc" stops nowhere.
    ensures zero_octet { StopsAt small (record { opcode = 7; operands = Result 5 ∷ Text (97 ∷ 0 ∷ []) ∷ [] }
        ∷ []) N2 0 }
    ensures spelled { (code : EncodeCode) (n : ℕ) → ¬ (StopsAt small (string ∷ []) code n) }
    // The three words of `OpString` "abc" after 4,194,302 others are too many, and after one fewer they are not.
    ensures long { IsTooLong small [] 4194302 string }
    ensures short { ¬ (IsTooLong small [] 4194301 string) }
{}
