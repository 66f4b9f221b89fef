//! Laws of the definitions, and worked examples. Each function does nothing: its contract is what
//! is proved.

ghost use Rattle.std.specs.Prelude.{◌≡◌, ◌≢◌, ◌<◌, ◌≤◌, ◌*◌, ◌%◌, ◌-◌, ◌^◌, ◌++◌, ℕ, List, [], ◌∷◌};
ghost use Rattle.std.specs.Prelude.{Some, Ok, Err, length, All};
ghost use Rattle.spv_words.specs.Count.{counted};
ghost use Rattle.spv_words.specs.Example.{big_header, header_words, little_header};
ghost use Rattle.spv_words.specs.Streams.{HoldsBytes, GaveAtMost, IsStop};
ghost use Rattle.spv_words.specs.Words.{StandFor, words_of, turned};
ghost use Rattle.spv_words.specs.Version.{as_1_6, version_front};
ghost use Rattle.spv_words.specs.Header.{greatest_bound, greatest_size, magic_number, version_number, IsModule};
ghost use Rattle.spv_words.specs.Header.{IsFirstBroken, IsHeader, IsImage, BytesKeep, RefusesBytes, StandInOrder};
ghost use Rattle.spv_words.specs.inner.HeaderTest.{Breaks, PassesTest};
ghost use Rattle.spv_words.specs.declared.words.Order.{Order};
ghost use Rattle.spv_words.specs.declared.words.Order.TheVariants.{Little, Big};
ghost use Rattle.spv_words.specs.declared.words.WordError.{WordError};
ghost use Rattle.spv_words.specs.declared.words.WordError.TheVariants.{W2, W3, W4, W6, W7, W8, W9};

use crate::limits::{GREATEST_BOUND, GREATEST_LENGTH, GREATEST_SIZE, MAGIC_NUMBER, VERSION};

/// The constants are the numbers of the definitions.
pub fn constants()
    ensures magic { MAGIC_NUMBER ≡ magic_number }
    ensures version { VERSION ≡ version_number }
    ensures bound { GREATEST_BOUND ≡ greatest_bound }
    ensures size { GREATEST_SIZE ≡ greatest_size }
    // A word has four bytes.
    ensures words { 4 * GREATEST_LENGTH ≡ greatest_size }
{}

/// Bytes stand for at most one list of words in an order, and are a module's in at most one order.
pub fn one_word_list()
    ensures words { (o : Order) (bs ws vs : List ℕ) → StandFor o bs ws → StandFor o bs vs → ws ≡ vs }
    ensures order { (o p : Order) (bs ws vs : List ℕ) → IsModule o bs ws → IsModule p bs vs
        → (o ≡ p) × (ws ≡ vs) }
{}

/// Words have at most one list of bytes in an order.
pub fn one_byte_list()
    ensures { (o : Order) (bs cs ws : List ℕ) → StandFor o bs ws → StandFor o cs ws → bs ≡ cs }
{}

/// Bytes in whole groups of four stand for the words of the groups, and the turned groups for the
/// same words in the other order.
pub fn words_stand()
    ensures whole { (o : Order) (bs : List ℕ) → All (λ b. b < 256) bs → length bs % 4 ≡ 0
        → StandFor o bs (words_of o bs) }
    ensures other { (bs ws : List ℕ) → StandFor Little bs ws → StandFor Big (turned bs) ws }
{}

/// Bytes break at most one code first, and none where they are a module's.
pub fn one_refusal()
    ensures once { (d e : WordError) (bs : List ℕ) → IsFirstBroken d bs → IsFirstBroken e bs → d ≡ e }
    ensures never { (e : WordError) (o : Order) (bs ws : List ℕ) → IsModule o bs ws → ¬ IsFirstBroken e bs }
{}

/// Bytes that begin as a module of one of the versions 1.0 to 1.6 does keep all but the version, and any other bytes
/// are kept whole. Twice is once.
pub fn versions()
    ensures replaced { (o : Order) (minor : ℕ) (rest : List ℕ) → minor ≤ 6
        → as_1_6 (version_front o minor ++ rest) ≡ version_front o 6 ++ rest }
    ensures kept { (bytes : List ℕ) → ((o : Order) (minor : ℕ) (rest : List ℕ) → minor ≤ 6
        → bytes ≢ version_front o minor ++ rest) → as_1_6 bytes ≡ bytes }
    ensures again { (bytes : List ℕ) → as_1_6 (as_1_6 bytes) ≡ as_1_6 bytes }
{}

/// Worked examples.
pub fn examples()
    // 01 02 03 04 is the word 0x04030201 in Little and 0x01020304 in Big.
    ensures little { StandFor Little (1 ∷ 2 ∷ 3 ∷ 4 ∷ []) (67305985 ∷ []) }
    ensures big { StandFor Big (1 ∷ 2 ∷ 3 ∷ 4 ∷ []) (16909060 ∷ []) }
    ensures other { ¬ (StandFor Little (1 ∷ 2 ∷ 3 ∷ 4 ∷ []) (16909060 ∷ [])) }
    // Version 1.6, generator 7, bound 5; then a bound of 0.
    ensures header { IsHeader (119734787 ∷ 67072 ∷ 7 ∷ 5 ∷ 0 ∷ []) }
    ensures no_bound { ¬ (IsHeader (119734787 ∷ 67072 ∷ 7 ∷ 0 ∷ 0 ∷ [])) }
    // The same two headers as bytes, in Big and in no other order.
    ensures module_bytes { IsModule Big (7 ∷ 35 ∷ 2 ∷ 3 ∷ 0 ∷ 1 ∷ 6 ∷ 0 ∷ 0 ∷ 0 ∷ 0 ∷ 7 ∷ 0
        ∷ 0 ∷ 0 ∷ 5 ∷ 0 ∷ 0 ∷ 0 ∷ 0 ∷ []) (119734787 ∷ 67072 ∷ 7 ∷ 5 ∷ 0 ∷ []) }
    ensures bound_first { IsFirstBroken W7 (7 ∷ 35 ∷ 2 ∷ 3 ∷ 0 ∷ 1 ∷ 6 ∷ 0 ∷ 0 ∷ 0 ∷ 0 ∷ 7 ∷ 0
        ∷ 0 ∷ 0 ∷ 0 ∷ 0 ∷ 0 ∷ 0 ∷ 0 ∷ []) }
    ensures one_order { (ws : List ℕ) → ¬
        (IsModule Little (7 ∷ 35 ∷ 2 ∷ 3 ∷ 0 ∷ 1 ∷ 6 ∷ 0 ∷ 0 ∷ 0 ∷ 0 ∷ 7 ∷ 0 ∷ 0 ∷ 0 ∷ 5
        ∷ 0 ∷ 0 ∷ 0 ∷ 0 ∷ []) ws) }
    // Three bytes break W2 and W3, and W2 is the first.
    ensures size_first { IsFirstBroken W2 (1 ∷ 2 ∷ 3 ∷ []) }
    ensures size_second { ¬ (IsFirstBroken W3 (1 ∷ 2 ∷ 3 ∷ [])) }
{}

/// Worked examples of words and turned groups.
pub fn word_examples()
    // A fifth byte is in no whole group.
    ensures little { words_of Little (1 ∷ 2 ∷ 3 ∷ 4 ∷ 5 ∷ []) ≡ 67305985 ∷ [] }
    ensures big { words_of Big (1 ∷ 2 ∷ 3 ∷ 4 ∷ 5 ∷ []) ≡ 16909060 ∷ [] }
    ensures none { words_of Big (1 ∷ 2 ∷ 3 ∷ []) ≡ [] }
    ensures other { ¬ (words_of Big (1 ∷ 2 ∷ 3 ∷ 4 ∷ []) ≡ 67305985 ∷ []) }
    // Each group is turned by itself.
    ensures groups { turned (1 ∷ 2 ∷ 3 ∷ 4 ∷ 5 ∷ 6 ∷ 7 ∷ 8 ∷ []) ≡ 4 ∷ 3 ∷ 2 ∷ 1 ∷ 8 ∷ 7
        ∷ 6 ∷ 5 ∷ [] }
    ensures whole { ¬ (turned (1 ∷ 2 ∷ 3 ∷ 4 ∷ 5 ∷ 6 ∷ 7 ∷ 8 ∷ []) ≡ 8 ∷ 7 ∷ 6 ∷ 5 ∷ 4 ∷ 3
        ∷ 2 ∷ 1 ∷ []) }
{}

/// Worked examples of what bytes keep and break.
pub fn header_examples()
    // The bytes tell their words in one order alone, and only those in Little are an image's.
    ensures tells { StandInOrder Big big_header header_words }
    ensures tells_other { (ws : List ℕ) → ¬ (StandInOrder Little big_header ws) }
    ensures image { IsImage little_header }
    ensures no_image { ¬ (IsImage big_header) }
    // Whole groups of four, the magic number and the bound.
    ensures keeps_groups { BytesKeep W3 (1 ∷ 2 ∷ 3 ∷ 4 ∷ []) }
    ensures breaks_groups { ¬ (BytesKeep W3 (1 ∷ 2 ∷ 3 ∷ [])) }
    ensures keeps_magic { BytesKeep W4 big_header }
    ensures breaks_magic { ¬ (BytesKeep W4 (1 ∷ 2 ∷ 3 ∷ 4 ∷ [])) }
    ensures keeps_bound { BytesKeep W7 big_header }
    ensures breaks_bound { ¬ (BytesKeep W7 (7 ∷ 35 ∷ 2 ∷ 3 ∷ 0 ∷ 1 ∷ 6 ∷ 0 ∷ 0 ∷ 0 ∷ 0 ∷ 7 ∷ 0
        ∷ 0 ∷ 0 ∷ 0 ∷ 0 ∷ 0 ∷ 0 ∷ 0 ∷ [])) }
    // Three bytes are refused by W2 and not by W3; W9 says nothing of the bytes.
    ensures refuses { RefusesBytes W2 (1 ∷ 2 ∷ 3 ∷ []) }
    ensures refuses_later { ¬ (RefusesBytes W3 (1 ∷ 2 ∷ 3 ∷ [])) }
    ensures refuses_memory { (bytes : List ℕ) → RefusesBytes W9 bytes }
    // Version 1.6, schema 0 and bound 5; then a bound of 0; then a schema of 1 before it.
    ensures fits { PassesTest 67072 0 5 }
    ensures no_bound { ¬ (PassesTest 67072 0 0) }
    ensures schema_first { Breaks W6 67072 1 0 }
    ensures bound_second { ¬ (Breaks W7 67072 1 0) }
    // Too many bytes stop the reading, too few do not.
    ensures stops { IsStop W8 }
    ensures goes_on { ¬ (IsStop W2) }
{
    examples();
}

/// Worked examples of what streams do.
pub fn stream_examples()
    // A writer that held the byte 9 got two bytes of the word 1.
    ensures wrote { HoldsBytes Little (1 ∷ []) (9 ∷ []) (Some (9 ∷ 1 ∷ 0 ∷ [])) 2 }
    ensures wrote_nothing { ¬ (HoldsBytes Little (1 ∷ []) (9 ∷ []) (Some (9 ∷ [])) 2) }
    // A reader gave one of two bytes; both are more than one.
    ensures gave { GaveAtMost 1 (5 ∷ 6 ∷ []) (Some (6 ∷ [])) }
    ensures gave_both { ¬ (GaveAtMost 1 (5 ∷ 6 ∷ []) (Some [])) }
    // The count stays after a success, and wraps after the greatest number of failures.
    ensures no_failure { (n : ℕ) → counted {E = ℕ} (Ok n) 7 ≡ 7 }
    ensures one_failure { (e : ℕ) → counted {A = ℕ} (Err e) 7 ≡ 8 }
    ensures wraps { (e : ℕ) → counted {A = ℕ} (Err e) (2 ^ 64 - 1) ≡ 0 }
{}

/// Worked examples of versions.
pub fn version_examples()
    // Version 1.2 in either order, and a byte behind it.
    ensures little { as_1_6 (3 ∷ 2 ∷ 35 ∷ 7 ∷ 0 ∷ 2 ∷ 1 ∷ 0 ∷ 9 ∷ [])
        ≡ 3 ∷ 2 ∷ 35 ∷ 7 ∷ 0 ∷ 6 ∷ 1 ∷ 0 ∷ 9 ∷ [] }
    ensures big { as_1_6 (7 ∷ 35 ∷ 2 ∷ 3 ∷ 0 ∷ 1 ∷ 2 ∷ 0 ∷ 9 ∷ [])
        ≡ 7 ∷ 35 ∷ 2 ∷ 3 ∷ 0 ∷ 1 ∷ 6 ∷ 0 ∷ 9 ∷ [] }
    ensures not_kept { as_1_6 (3 ∷ 2 ∷ 35 ∷ 7 ∷ 0 ∷ 2 ∷ 1 ∷ 0 ∷ [])
        ≢ 3 ∷ 2 ∷ 35 ∷ 7 ∷ 0 ∷ 2 ∷ 1 ∷ 0 ∷ [] }
    // There is no version 1.7, and 2.6 has another major number.
    ensures later { as_1_6 (3 ∷ 2 ∷ 35 ∷ 7 ∷ 0 ∷ 7 ∷ 1 ∷ 0 ∷ [])
        ≡ 3 ∷ 2 ∷ 35 ∷ 7 ∷ 0 ∷ 7 ∷ 1 ∷ 0 ∷ [] }
    ensures major { as_1_6 (3 ∷ 2 ∷ 35 ∷ 7 ∷ 0 ∷ 2 ∷ 2 ∷ 0 ∷ [])
        ≡ 3 ∷ 2 ∷ 35 ∷ 7 ∷ 0 ∷ 2 ∷ 2 ∷ 0 ∷ [] }
    // Seven bytes are too few, and those of one order are not read in the other.
    ensures short { as_1_6 (3 ∷ 2 ∷ 35 ∷ 7 ∷ 0 ∷ 2 ∷ 1 ∷ []) ≡ 3 ∷ 2 ∷ 35 ∷ 7 ∷ 0 ∷ 2 ∷ 1 ∷ [] }
    ensures mixed { as_1_6 (3 ∷ 2 ∷ 35 ∷ 7 ∷ 0 ∷ 1 ∷ 2 ∷ 0 ∷ [])
        ≡ 3 ∷ 2 ∷ 35 ∷ 7 ∷ 0 ∷ 1 ∷ 2 ∷ 0 ∷ [] }
{}
