ghost use Rattle.std.specs.Prelude.{◌≡◌, [], ◌∷◌, ◌++◌, List, Some, IfOk, OnOk};
ghost use Rattle.std.specs.Str.{IsUtf8};
ghost use Rattle.json.specs.Token.{Token, begin_object, end_object, begin_array, end_array, key, string, boolean, null};
ghost use Rattle.json.specs.Lex.{tokens};
ghost use Rattle.json.specs.Print.{print};
ghost use Rattle.json.specs.Tree.{json_tokens};
ghost use Rattle.lvish_json.specs.Adds.{Adds, IsLineOfTokens};
ghost use Rattle.lvish_json.specs.Shape.{whole, count};

use json::Writer;
use std::alloc::{AllocError, Global};
use std::marker::Model;

/// From this absolute value on, a reader that keeps doubles could round a number.
const FIRST_ROUNDED: u64 = 1 << 53;

/// A text that is being written, seen as its tokens. It notes where a growth was refused, and says so at its
/// end: so whoever writes it asks once, and not at each token.
pub struct JsonText {
    writer: Writer<Global>,
    is_whole: bool,
}

impl Model for JsonText {
    ghost use Rattle.std.specs.Prelude.{◌≡◌, List, [], Option};
    ghost use Rattle.std.specs.Coded.{coded_option};
    ghost use Rattle.json.specs.Token.{Token, tokens_code};
    ghost use Rattle.lvish_json.specs.Seen.{seen};

    ghost Value = { Option (List Token) };

    ghost coded = { coded_option tokens_code };

    ghost view = { λ t. seen t.is_whole t.writer.tokens };

    ghost invariant = { λ t. t.writer.before ≡ [] };
}

// Written out, so that it is proved once, and not at each exit of a function that owns one.
impl Drop for JsonText {
    fn drop(self) {
        let JsonText {
            writer: _,
            is_whole: _,
        } = self;
    }
}

impl JsonText {
    pub fn new(alloc: Global) -> JsonText
        ensures { result ≡ Some [] }
    {
        JsonText {
            writer: Writer::new(Vec::new(alloc)),
            is_whole: true,
        }
    }

    /// Notes that memory was refused.
    pub fn fail(&mut self)
        ensures { (ts : List Token) → Adds self.old self.new ts }
    {
        self.is_whole = false;
    }

    /// The text, and a line end.
    pub fn into_line(self) -> Result<Vec<u8>, AllocError>
        ensures { IfOk result (λ bytes. IsLineOfTokens self bytes.items) }
    {
        let JsonText { writer, is_whole } = self;
        if !is_whole {
            return Err(AllocError);
        }
        let mut bytes = writer.into_inner();
        bytes.push(b'\n')?;
        Ok(bytes)
    }

    pub fn begin_object(&mut self)
        ensures { Adds self.old self.new (begin_object ∷ []) }
    {
        if let Err(_) = self.writer.begin_object() {
            self.is_whole = false;
        }
    }

    pub fn end_object(&mut self)
        ensures { Adds self.old self.new (end_object ∷ []) }
    {
        if let Err(_) = self.writer.end_object() {
            self.is_whole = false;
        }
    }

    pub fn begin_array(&mut self)
        ensures { Adds self.old self.new (begin_array ∷ []) }
    {
        if let Err(_) = self.writer.begin_array() {
            self.is_whole = false;
        }
    }

    pub fn end_array(&mut self)
        ensures { Adds self.old self.new (end_array ∷ []) }
    {
        if let Err(_) = self.writer.end_array() {
            self.is_whole = false;
        }
    }

    pub fn key(&mut self, name: &str)
        ensures { Adds self.old self.new (key name.now ∷ []) }
    {
        if let Err(_) = self.writer.key(name) {
            self.is_whole = false;
        }
    }

    pub fn string(&mut self, text: &str)
        ensures { Adds self.old self.new (string text.now ∷ []) }
    {
        if let Err(_) = self.writer.string(text) {
            self.is_whole = false;
        }
    }

    pub fn boolean(&mut self, value: bool)
        ensures { Adds self.old self.new (boolean value ∷ []) }
    {
        if let Err(_) = self.writer.boolean(value) {
            self.is_whole = false;
        }
    }

    pub fn null(&mut self)
        ensures { Adds self.old self.new (null ∷ []) }
    {
        if let Err(_) = self.writer.null() {
            self.is_whole = false;
        }
    }

    /// Adds a number, in quotes where a reader could round it.
    pub fn whole(&mut self, number: i64)
        ensures { Adds self.old self.new (json_tokens (whole number)) }
    {
        if let Err(_) = put_whole(&mut self.writer, number) {
            self.is_whole = false;
        }
    }

    /// The same of a count.
    pub fn count(&mut self, number: u64)
        ensures { Adds self.old self.new (json_tokens (count number)) }
    {
        if let Err(_) = put_count(&mut self.writer, number) {
            self.is_whole = false;
        }
    }

    /// Adds a member whose value is a text.
    #[tactic(auto, using(crate::proofs::Adding::adds_then))]
    pub fn text_member(&mut self, name: &str, text: &str)
        ensures { Adds self.old self.new (key name.now ∷ string text.now ∷ []) }
    {
        self.key(name);
        self.string(text)
    }

    /// Adds a member whose value is true or false.
    #[tactic(auto, using(crate::proofs::Adding::adds_then))]
    pub fn boolean_member(&mut self, name: &str, value: bool)
        ensures { Adds self.old self.new (key name.now ∷ boolean value ∷ []) }
    {
        self.key(name);
        self.boolean(value)
    }

    /// Adds a member whose value is a number.
    #[tactic(auto, using(crate::proofs::Adding::adds_then))]
    pub fn whole_member(&mut self, name: &str, number: i64)
        ensures { Adds self.old self.new (key name.now ∷ json_tokens (whole number)) }
    {
        self.key(name);
        self.whole(number)
    }

    /// Adds a member whose value is a count.
    #[tactic(auto, using(crate::proofs::Adding::adds_then))]
    pub fn count_member(&mut self, name: &str, number: u64)
        ensures { Adds self.old self.new (key name.now ∷ json_tokens (count number)) }
    {
        self.key(name);
        self.count(number)
    }
}

/// Writes a number, in quotes where a reader could round it.
fn put_whole(writer: &mut Writer<Global>, number: i64) -> Result<(), AllocError>
    ensures tokens { OnOk result (writer.new.tokens ≡ writer.old.tokens ++ json_tokens (whole number)) }
    ensures before { writer.new.before ≡ writer.old.before }
{
    if number.unsigned_abs() < FIRST_ROUNDED {
        return writer.i64(number);
    }
    writer.quoted_i64(number)
}

/// The same of a count.
fn put_count(writer: &mut Writer<Global>, number: u64) -> Result<(), AllocError>
    ensures tokens { OnOk result (writer.new.tokens ≡ writer.old.tokens ++ json_tokens (count number)) }
    ensures before { writer.new.before ≡ writer.old.before }
{
    if number < FIRST_ROUNDED {
        return writer.u64(number);
    }
    writer.quoted_u64(number)
}
