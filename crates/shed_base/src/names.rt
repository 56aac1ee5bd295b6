ghost use Rattle.std.specs.Prelude.{◌≡◌, ◌<◌, ◌^◌, ◌↔◌, codes, slice_get, option_copied, Some, true, IsOk, IfOk, OnOk, OnErr};
ghost use Rattle.shed_base.specs.Names.{special_texts, has_text, with_text, AreDistinct, OnePlace, KeptPlace};

use crate::refusals::NoMemory;
use indexmap::IndexSet;
use std::alloc::Global;
use std::marker::Model;

/// A name that stands for a text of a `Names`: the place of the text there, from 0.
///
/// Names of one `Names` are equal exactly where their texts are. They are ordered by place.
#[derive(Clone, Copy, Debug, PartialEq, Eq, PartialOrd, Ord, Hash)]
pub struct Name(pub u32);

impl Name {
    /// The name of `__init__`.
    pub const INIT: Name = Name(0);

    /// The name of `__str__`.
    pub const STR: Name = Name(1);

    /// The name of `__eq__`.
    pub const EQ: Name = Name(2);

    /// The name of `__lt__`.
    pub const LT: Name = Name(3);

    /// The name of `__len__`.
    pub const LEN: Name = Name(4);

    // The name at a place, or NoMemory where the number does not hold the place.
    fn at(place: usize) -> Result<Name, NoMemory>
        ensures place { IfOk result (λ name. name.0 ≡ place) }
        ensures held { IsOk result ↔ (place < 2 ^ 32) }
    {
        match u32::try_from(place) {
            Ok(number) => Ok(Name(number)),
            Err(_) => Err(NoMemory),
        }
    }
}

/// Texts, each once, in the order in which they came, and each with its place as its name.
#[derive(Debug, Drop)]
pub struct Names {
    texts: IndexSet<String>,
}

impl Model for Names {
    ghost use Rattle.std.specs.Prelude.{ℕ, ◌≤◌, ◌^◌, List, map, length, string_bytes};
    ghost use Rattle.shed_base.specs.Names.{AreDistinct};

    ghost Value = { List (List ℕ) };

    ghost view = { λ names. map string_bytes names.texts.keys };

    ghost invariant = { λ names. AreDistinct (map string_bytes names.texts.keys) × (length names.texts.keys ≤ 2 ^ 32) };
}

impl Names {
    /// The texts `__init__`, `__str__`, `__eq__`, `__lt__` and `__len__`, in this order.
    ///
    /// Fails with `NoMemory` where memory runs out.
    pub fn new(alloc: Global) -> Result<Names, NoMemory>
        ensures texts { IfOk result (λ names. names ≡ special_texts) }
        ensures distinct { IfOk result AreDistinct }
    {
        let mut names = Names {
            texts: IndexSet::new(alloc),
        };
        for text in ["__init__", "__str__", "__eq__", "__lt__", "__len__"] {
            names.intern(text)?;
        }
        Ok(names)
    }

    /// The name of a text, which becomes the last text if it is not there yet.
    ///
    /// Fails with `NoMemory` where memory runs out, or where there are 2^32 other texts; the texts
    /// are then as before. For a text that is there it takes no memory and does not fail.
    pub fn intern(&mut self, text: &str) -> Result<Name, NoMemory>
        ensures texts { OnOk result (self.new ≡ with_text self.old text.now) }
        ensures place { IfOk result (λ name. slice_get self.new name.0 ≡ Some text.now) }
        ensures err { OnErr result (self.new ≡ self.old) }
        ensures known { has_text self.old text.now ≡ true → IsOk result }
        ensures distinct { AreDistinct self.new }
    {
        if let Some(place) = self.texts.get_index_of(text) {
            return Name::at(place);
        }
        let name = Name::at(self.texts.len())?;
        let text = String::from_str(*self.texts.allocator(), text)?;
        self.texts.insert(text)?;
        Ok(name)
    }

    /// The text of a name, and None where no text has this name.
    pub fn text(&self, name: Name) -> Option<&str>
        ensures text { option_copied result ≡ slice_get self.now name.0 }
        ensures distinct { AreDistinct self.now }
    {
        let text = self.texts.get_index(name.0 as usize)?;
        Some(text.as_str())
    }
}

/// The constants of `Name` are the names of the special texts. This does nothing.
pub fn special_names()
    ensures init { slice_get special_texts Name.INIT.0 ≡ Some (codes "__init__") }
    ensures str { slice_get special_texts Name.STR.0 ≡ Some (codes "__str__") }
    ensures eq { slice_get special_texts Name.EQ.0 ≡ Some (codes "__eq__") }
    ensures lt { slice_get special_texts Name.LT.0 ≡ Some (codes "__lt__") }
    ensures len { slice_get special_texts Name.LEN.0 ≡ Some (codes "__len__") }
{}

/// A text of distinct texts has one place. This does nothing.
pub fn one_place()
    ensures { OnePlace }
{}

/// A text keeps its place when others are interned. This does nothing.
pub fn kept_place()
    ensures { KeptPlace }
{}
