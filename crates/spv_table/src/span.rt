ghost use Rattle.std.specs.Prelude.{◌≡◌};
ghost use Rattle.std.specs.Str.{IsAscii};
ghost use Rattle.spv_table.specs.Span.{spanned};

/// A part of a text or of a list: where it begins, and where it ends.
#[derive(Clone, Copy)]
pub struct Span(pub u32, pub u32);

impl Span {
    /// The part of a text in ASCII, in octets: what there is of it.
    #[inline(always)]
    pub fn of(self, text: &str) -> &str
        requires { IsAscii text.now }
        ensures { result.now ≡ spanned text.now self }
    {
        let end = (self.1 as usize).min(text.len());
        let begin = (self.0 as usize).min(end);
        &text[begin..end]
    }

    /// The part of a list: what there is of it.
    #[inline(always)]
    pub fn among<T>(self, items: &[T]) -> &[T]
        ensures { result.now ≡ spanned items.now self }
    {
        let end = (self.1 as usize).min(items.len());
        let begin = (self.0 as usize).min(end);
        &items[begin..end]
    }
}
