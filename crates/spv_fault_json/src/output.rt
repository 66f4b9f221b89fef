//! A JSON text that is written token by token.

use crate::quiet::quieted;
use json::Writer;
use spv_facts::Key;
use std::alloc::{AllocError, Global};
use std::marker::Model;

/// A JSON text that is written token by token; commas and colons stand by themselves. Contracts see it as the list of
/// its tokens.
#[derive(Drop)]
pub struct Output {
    alloc: Global,
    writer: Writer<Global>,
}

impl Model for Output {
    ghost use Rattle.std.specs.Prelude.{◌≡◌, List, []};
    ghost use Rattle.json.specs.Token.{Token, tokens_code};

    ghost Value = { List Token };

    ghost coded = { tokens_code };

    ghost view = { λ o. o.writer.tokens };

    ghost invariant = { λ o. o.writer.before ≡ [] };
}

impl Output {
    ghost use Rattle.std.specs.Prelude.{◌≡◌, ◌++◌, ◌∷◌, [], IfOk, OnOk, codes};
    ghost use Rattle.json.specs.Print.{print};
    ghost use Rattle.json.specs.Token.{begin_array, begin_object, boolean, end_array, end_object, key as name, null};
    ghost use Rattle.json.specs.Token.{string};
    ghost use Rattle.spv_fault_json.specs.Quiet.{quiet_of};
    ghost use Rattle.spv_fault_json.specs.Tokens as tokens;

    /// A text without tokens. It takes no memory.
    pub fn new(alloc: Global) -> Output
        ensures { result ≡ [] }
    {
        Output {
            alloc,
            writer: Writer::new(Vec::new(alloc)),
        }
    }

    /// The text as one line, without control characters: DEL and those from U+0080 to U+009F stand as JSON escapes
    /// them.
    ///
    /// An `AllocError` comes only where a growth of memory was refused, as it does of each of these calls.
    pub fn into_line(self) -> Result<Vec<u8>, AllocError>
        ensures { IfOk result (λ v. v.items ≡ quiet_of (print self) ++ 10 ∷ []) }
    {
        let Output { alloc, writer } = self;
        let mut bytes = quieted(alloc, writer.into_inner())?;
        bytes.push(b'\n')?;
        Ok(bytes)
    }

    /// Begins an object.
    pub fn begin_object(&mut self) -> Result<(), AllocError>
        ensures { OnOk result (self.new ≡ self.old ++ begin_object ∷ []) }
    {
        self.writer.begin_object()
    }

    /// Ends an object.
    pub fn end_object(&mut self) -> Result<(), AllocError>
        ensures { OnOk result (self.new ≡ self.old ++ end_object ∷ []) }
    {
        self.writer.end_object()
    }

    /// Begins an array.
    pub fn begin_array(&mut self) -> Result<(), AllocError>
        ensures { OnOk result (self.new ≡ self.old ++ begin_array ∷ []) }
    {
        self.writer.begin_array()
    }

    /// Ends an array.
    pub fn end_array(&mut self) -> Result<(), AllocError>
        ensures { OnOk result (self.new ≡ self.old ++ end_array ∷ []) }
    {
        self.writer.end_array()
    }

    /// Adds the name of a member, whose value comes next.
    pub fn name(&mut self, text: &str) -> Result<(), AllocError>
        ensures { OnOk result (self.new ≡ self.old ++ name text.now ∷ []) }
    {
        self.writer.key(text)
    }

    /// Adds the name of the member of a key, whose value comes next.
    pub fn key(&mut self, key: Key) -> Result<(), AllocError>
        ensures { OnOk result (self.new ≡ self.old ++ tokens.key_token key ∷ []) }
    {
        self.name(key.member_name())
    }

    /// Adds a text.
    pub fn text(&mut self, text: &str) -> Result<(), AllocError>
        ensures { OnOk result (self.new ≡ self.old ++ string text.now ∷ []) }
    {
        self.writer.string(text)
    }

    /// Adds a number.
    pub fn number(&mut self, number: u32) -> Result<(), AllocError>
        ensures { OnOk result (self.new ≡ self.old ++ tokens.number_token number ∷ []) }
    {
        self.writer.u64(u64::from(number))
    }

    /// Adds `true` or `false`.
    pub fn truth(&mut self, truth: bool) -> Result<(), AllocError>
        ensures { OnOk result (self.new ≡ self.old ++ boolean truth ∷ []) }
    {
        self.writer.boolean(truth)
    }

    /// Adds `null`.
    pub fn null(&mut self) -> Result<(), AllocError>
        ensures { OnOk result (self.new ≡ self.old ++ null ∷ []) }
    {
        self.writer.null()
    }

    /// Adds a number, or `null` where there is none.
    pub fn maybe_number(&mut self, number: Option<u32>) -> Result<(), AllocError>
        ensures { OnOk result (self.new ≡ self.old ++ tokens.maybe_number number) }
    {
        match number {
            Some(number) => self.number(number),
            None => self.null(),
        }
    }

    /// Adds a member that is a text.
    pub fn text_member(&mut self, name: &str, text: &str) -> Result<(), AllocError>
        ensures { OnOk result (self.new ≡ self.old ++ tokens.text_member name.now text.now) }
    {
        self.name(name)?;
        self.text(text)
    }

    /// Adds a member that is a number.
    pub fn number_member(&mut self, name: &str, number: u32) -> Result<(), AllocError>
        ensures { OnOk result (self.new ≡ self.old ++ tokens.number_member name.now number) }
    {
        self.name(name)?;
        self.number(number)
    }
}
