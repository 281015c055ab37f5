ghost use Rattle.std.specs.Prelude.{◌≡◌, ℕ, ◌∷◌, ◌++◌, ◌↔◌, [], IfOk, IfSome, OnOk, OnErr, None};
ghost use Rattle.span_styles.specs.Table.{HasId, IsAbsent, next_id};
ghost use Rattle.span_styles.specs.Keys.{key_of};

use crate::key::StyleKey;
use plain_edits::Style;
use plain_text::{NoMemory, TryClone};
use std::alloc::Global;
use std::collections::BTreeMap;
use std::marker::Model;

/// The styles of a session, of which no two are the same. To a contract it is the list of them, in the order in which they were
/// defined; ids count from 2.
#[derive(Drop)]
pub struct StyleTable {
    styles: Vec<Style>,
    ids: BTreeMap<StyleKey, u64>,
}

impl Model for StyleTable {
    ghost use Rattle.std.specs.Prelude.{List};
    ghost use Rattle.plain_edits.specs.declared.style.Style.{Style};
    ghost use Rattle.span_styles.specs.Keys.{IsTable};

    ghost Value = { List Style };

    ghost view = { λ t. t.styles.items };

    ghost invariant = { λ t. IsTable t.styles.items t.ids };
}

impl StyleTable {
    pub fn new(alloc: Global) -> StyleTable
        ensures { result ≡ [] }
    {
        StyleTable {
            styles: Vec::new(alloc),
            ids: BTreeMap::new(alloc),
        }
    }

    /// The id of a style; `None` exactly where it is not there. This costs the logarithm of the number of styles.
    pub fn find(&self, style: &Style) -> Option<u64>
        ensures found { IfSome result (HasId self.now style.now) }
        ensures one { IfSome result (λ id. (other : ℕ) → HasId self.now style.now other → other ≡ id) }
        ensures absent { (result ≡ None) ↔ IsAbsent self.now style.now }
    {
        self.ids.get(&key(style)).copied()
    }

    /// Puts a style at the end, and gives its id. After want of memory the table is as before.
    pub fn define(&mut self, style: Style) -> Result<u64, NoMemory>
        requires { IsAbsent self.old style }
        ensures id { IfOk result (λ id. id ≡ next_id self.old) }
        ensures defined { OnOk result (self.new ≡ self.old ++ style ∷ []) }
        ensures unchanged { OnErr result (self.new ≡ self.old) }
    {
        let id = self.styles.len() as u64 + 2;
        self.styles.push(style)?;
        match self.ids.insert(key(&style), id) {
            Ok(_) => Ok(id),
            Err(_) => {
                let _ = self.styles.pop();
                Err(NoMemory)
            }
        }
    }
}

impl TryClone for StyleTable {
    /// A copy, which costs what so many definitions cost.
    fn copy(&self, alloc: Global) -> Result<StyleTable, NoMemory> {
        let mut made = StyleTable::new(alloc);
        for style in &self.styles {
            made.define(*style)?;
        }
        Ok(made)
    }
}

fn key(style: &Style) -> StyleKey
    ensures { result ≡ key_of style.now }
{
    StyleKey {
        fg_color: style.fg_color,
        bg_color: style.bg_color,
        weight: style.weight,
        italic: style.italic,
        underline: style.underline,
    }
}
