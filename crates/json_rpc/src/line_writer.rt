ghost use Rattle.std.specs.Prelude.{◌≡◌, ◌≤◌, [], ◌∷◌, ◌++◌, pos, true, false, IfOk, OnErr, OnOk};
ghost use Rattle.std.specs.Str.{encode_utf8_all, all_scalars};
ghost use Rattle.json.specs.Token.{Token as SpecToken};
ghost use Rattle.serde_json.specs.Data.{Data, unsigned, boolean, number, depth};
ghost use Rattle.serde_json.specs.Find.{of_integer};
ghost use Rattle.serde_json.specs.Read.{max_depth};
ghost use Rattle.serde_json.specs.Written.{has_float};
ghost use Rattle.json_rpc.specs.Line.{IsLineOf};
ghost use Rattle.json_rpc.specs.Proper.{IsProper};
ghost use Rattle.json_rpc.specs.Response.{text_data};
ghost use Rattle.json_rpc.specs.Tokens.{value_then};

use json::Writer;
use plain_text::{NoMemory, Text};
use std::alloc::Global;
use std::marker::Model;

const LINE_FEED: u8 = b'\n';

/// A line that is being written, one part of its value after the other. No value is made for it, and commas and colons come by
/// themselves.
#[derive(Drop)]
pub struct LineWriter {
    out: Writer,
}

impl Model for LineWriter {
    ghost use Rattle.std.specs.Prelude.{◌≡◌, List, []};
    ghost use Rattle.json.specs.Token.{Token, tokens_code};

    ghost Value = { List Token };

    ghost coded = { tokens_code };

    ghost view = { λ w. w.out.tokens };

    ghost invariant = { λ w. w.out.before ≡ [] };
}

impl LineWriter {
    /// A line of which nothing is written, with room for this many bytes. It grows where that is too little.
    pub fn new(alloc: Global, room: usize) -> Result<LineWriter, NoMemory>
        ensures { IfOk result (λ line. line ≡ []) }
    {
        Ok(LineWriter {
            out: Writer::new(Vec::with_capacity(alloc, room)?),
        })
    }

    pub fn begin_object(&mut self) -> Result<(), NoMemory>
        ensures added { OnOk result (self.new ≡ self.old ++ SpecToken.begin_object ∷ []) }
        ensures unchanged { OnErr result (self.new ≡ self.old) }
    {
        Ok(self.out.begin_object()?)
    }

    pub fn end_object(&mut self) -> Result<(), NoMemory>
        ensures added { OnOk result (self.new ≡ self.old ++ SpecToken.end_object ∷ []) }
        ensures unchanged { OnErr result (self.new ≡ self.old) }
    {
        Ok(self.out.end_object()?)
    }

    pub fn begin_list(&mut self) -> Result<(), NoMemory>
        ensures added { OnOk result (self.new ≡ self.old ++ SpecToken.begin_array ∷ []) }
        ensures unchanged { OnErr result (self.new ≡ self.old) }
    {
        Ok(self.out.begin_array()?)
    }

    pub fn end_list(&mut self) -> Result<(), NoMemory>
        ensures added { OnOk result (self.new ≡ self.old ++ SpecToken.end_array ∷ []) }
        ensures unchanged { OnErr result (self.new ≡ self.old) }
    {
        Ok(self.out.end_array()?)
    }

    /// The name of a member, whose value comes next.
    pub fn name(&mut self, name: &str) -> Result<(), NoMemory>
        ensures added { OnOk result (self.new ≡ self.old ++ SpecToken.key name.now ∷ []) }
        ensures unchanged { OnErr result (self.new ≡ self.old) }
    {
        Ok(self.out.key(name)?)
    }

    pub fn word(&mut self, word: &str) -> Result<(), NoMemory>
        ensures added { OnOk result (self.new ≡ self.old ++ SpecToken.string word.now ∷ []) }
        ensures unchanged { OnErr result (self.new ≡ self.old) }
    {
        Ok(self.out.string(word)?)
    }

    pub fn text(&mut self, text: &Text) -> Result<(), NoMemory>
        ensures added { OnOk result (self.new ≡ self.old ++ value_then (text_data text.now) []) }
        ensures unchanged { OnErr result (self.new ≡ self.old) }
        ensures characters { OnOk result (all_scalars text.now ≡ true) }
    {
        self.word(text.as_str())
    }

    pub fn count(&mut self, n: u64) -> Result<(), NoMemory>
        ensures added { OnOk result (self.new ≡ self.old ++ value_then (number (unsigned n)) []) }
        ensures unchanged { OnErr result (self.new ≡ self.old) }
    {
        Ok(self.out.u64(n)?)
    }

    pub fn whole(&mut self, n: i64) -> Result<(), NoMemory>
        ensures added { OnOk result (self.new ≡ self.old ++ value_then (number (of_integer n)) []) }
        ensures unchanged { OnErr result (self.new ≡ self.old) }
    {
        Ok(self.out.i64(n)?)
    }

    pub fn truth(&mut self, truth: bool) -> Result<(), NoMemory>
        ensures added { OnOk result (self.new ≡ self.old ++ value_then (boolean truth) []) }
        ensures unchanged { OnErr result (self.new ≡ self.old) }
    {
        Ok(self.out.boolean(truth)?)
    }

    /// The line of the value whose parts were written. Each byte is looked at once more.
    pub fn into_line(self) -> Result<Text, NoMemory>
        ensures { (d : Data) → self ≡ value_then d [] → IsProper d → has_float d ≡ false
            → depth d ≤ max_depth → IfOk result (λ text. IsLineOf d (encode_utf8_all text)) }
    {
        let LineWriter { out } = self;
        let mut bytes = out.into_inner();
        bytes.push(LINE_FEED)?;
        match Text::from_utf8(bytes) {
            Ok(text) => Ok(text),
            Err(_) => unreachable!(),
        }
    }
}
