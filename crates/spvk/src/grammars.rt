//! Makes and deletes grammars, for C.
ghost use Rattle.std.specs.Prelude.{◌≡◌, ◌≢◌, IfSome, None, Some, option_map};
ghost use Rattle.spv_builtin.specs.Source.{IsTableOf};
ghost use Rattle.spvk.specs.Grammar.{IsReason};

use crate::handle::Grammar;
use crate::loose::Loose;
use crate::status::{MEMORY, OK, status};
use spv_builtin::table_of;
use std::alloc::Global;
use std::mem;

/// Makes the grammar of a grammar file's text, or the built-in one, or none where the status is not 0. The grammar that
/// was there is let go.
fn make(alloc: Global, text: Option<&[u8]>, grammar: &mut Grammar) -> u32
    ensures made { result ≡ 0 → IfSome grammar.new.table (IsTableOf (option_map (λ t. t.now) text.entry)) }
    ensures some { result ≡ 0 → grammar.new.table ≢ None }
    ensures none { result ≢ 0 → grammar.new.table ≡ None }
    ensures reason { result ≢ 0 → IsReason (option_map (λ t. t.now) text.entry) result }
{
    mem::replace(grammar, Grammar::none()).let_go(alloc);
    match table_of(alloc, text) {
        Ok(table) => match Box::new(alloc, table) {
            Ok(kept) => {
                mem::replace(grammar, Grammar::of(Loose::of(kept))).let_go(alloc);
                OK
            }
            Err(_) => MEMORY,
        },
        Err(error) => status(error),
    }
}

/// Makes the grammar of a grammar file's text, or none where the status is not 0. The grammar that was there is let go.
#[unsafe(no_mangle)]
pub extern "C" fn spvk_raw_grammar_new(alloc: Global, text: &[u8], grammar: &mut Grammar) -> u32
    ensures made { result ≡ 0 → IfSome grammar.new.table (IsTableOf (Some text.now)) }
    ensures some { result ≡ 0 → grammar.new.table ≢ None }
    ensures none { result ≢ 0 → grammar.new.table ≡ None }
    ensures reason { result ≢ 0 → IsReason (Some text.now) result }
{
    make(alloc, Some(text), grammar)
}

/// Makes the built-in grammar, or none where the status is not 0. The grammar that was there is let go.
#[unsafe(no_mangle)]
pub extern "C" fn spvk_raw_grammar_default(alloc: Global, grammar: &mut Grammar) -> u32
    ensures made { result ≡ 0 → IfSome grammar.new.table (IsTableOf None) }
    ensures some { result ≡ 0 → grammar.new.table ≢ None }
    ensures none { result ≢ 0 → grammar.new.table ≡ None }
    ensures reason { result ≢ 0 → IsReason None result }
{
    make(alloc, None, grammar)
}

/// Lets a grammar go. There is none then, as it may have been before.
#[unsafe(no_mangle)]
pub extern "C" fn spvk_raw_grammar_delete(alloc: Global, grammar: &mut Grammar)
    ensures { grammar.new.table ≡ None }
{
    mem::replace(grammar, Grammar::none()).let_go(alloc);
}
