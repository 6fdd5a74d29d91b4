//! Formulas and terms as they are written.

ghost use Rattle.std.specs.Prelude.{◌≡◌, ◌++◌, ◌∷◌, [], IfOk, OnOk, OnErr, map};
ghost use Rattle.tptp_reader.specs.SourceView.{the_source};
ghost use Rattle.tptp_reader.specs.TermView.{the_source_term};

use cop_base::{NoMemory, Text};
use std::alloc::{AllocError, Global};
use std::marker::Model;

#[derive(Clone, Copy, Debug, PartialEq, Eq)]
pub enum ChainKind {
    And,
    Or,
}

#[derive(Clone, Copy, Debug, PartialEq, Eq)]
pub enum BinaryKind {
    /// `=>`
    Imp,
    /// `<=`
    If,
    /// `<=>`
    Iff,
    /// `<~>`
    Xor,
    /// `~|`
    Nor,
    /// `~&`
    Nand,
}

/// A list of names.
#[derive(Drop)]
pub struct TextList {
    items: Vec<Text>,
}

impl Model for TextList {
    ghost use Rattle.std.specs.Prelude.{List, ℕ};

    ghost Value = { List (List ℕ) };

    ghost view = { λ a. a.items.items };
}

impl TextList {
    pub fn new(alloc: Global) -> TextList
        ensures { result ≡ [] }
    {
        TextList {
            items: Vec::new(alloc),
        }
    }

    pub fn push(&mut self, item: Text) -> Result<(), NoMemory>
        ensures ok { OnOk result (self.new ≡ self.old ++ item ∷ []) }
        ensures err { OnErr result (self.new ≡ self.old) }
    {
        self.items.push(item)?;
        Ok(())
    }

    pub fn items(&self) -> &[Text]
        ensures { result.now ≡ self.now }
    {
        self.items.as_slice()
    }
}

/// A term as it is written.
#[derive(Drop)]
#[cycle(source_term)]
pub enum SourceTerm {
    Var(Text),
    Fun(Text, SourceTerms),
}

#[derive(Drop)]
#[cycle(source_term)]
pub struct SourceTerms {
    items: Vec<SourceTerm>,
}

impl Model for SourceTerms {
    ghost use Rattle.std.specs.Prelude.{List, map};
    ghost use Rattle.tptp_reader.specs.Sources as tree;
    ghost use Rattle.tptp_reader.specs.Codes.{term_list_code};
    ghost use Rattle.tptp_reader.specs.Sizes.{term_list_size};

    ghost Value = { List tree.SourceTerm };

    ghost coded = { term_list_code };

    ghost use Rattle.tptp_reader.specs.TermView.{the_source_term};

    ghost view = { λ a. map the_source_term a.items.items };

    ghost size = { term_list_size };

    ghost use Rattle.tptp_reader.specs.Falls.{term-falls};

    ghost size_decreases = { λ a _. term-falls a.items.items };
}

impl SourceTerms {
    pub fn new(alloc: Global) -> SourceTerms
        ensures { result ≡ [] }
    {
        SourceTerms {
            items: Vec::new(alloc),
        }
    }

    pub fn push(&mut self, item: SourceTerm) -> Result<(), NoMemory>
        ensures ok { OnOk result (self.new ≡ self.old ++ the_source_term item ∷ []) }
        ensures err { OnErr result (self.new ≡ self.old) }
    {
        // Most lists of arguments are short.
        if self.items.as_slice().len() < 3 {
            self.items.reserve_exact(1)?;
        }
        self.items.push(item)?;
        Ok(())
    }

    pub fn items(&self) -> &[SourceTerm]
        ensures { map the_source_term result.now ≡ self.now }
    {
        self.items.as_slice()
    }
}

/// A formula as it is written. A chain has two formulas or more, a quantifier one variable or more.
#[derive(Drop)]
#[cycle(source)]
pub enum Source {
    Atom(Text, SourceTerms),
    True,
    False,
    Equal(SourceTerm, SourceTerm),
    Unequal(SourceTerm, SourceTerm),
    Not(SourceBox),
    Chain(ChainKind, SourceList),
    Binary(BinaryKind, SourceBox, SourceBox),
    All(TextList, SourceBox),
    Ex(TextList, SourceBox),
    Nec(SourceBox),
    Poss(SourceBox),
}

/// A formula on the heap.
#[derive(Drop)]
#[cycle(source)]
pub struct SourceBox {
    inner: Box<Source>,
}

impl Model for SourceBox {
    ghost use Rattle.tptp_reader.specs.Sources as tree;
    ghost use Rattle.tptp_reader.specs.Codes.{source_code};
    ghost use Rattle.tptp_reader.specs.Sizes.{source_size};

    ghost Value = { tree.Source };

    ghost coded = { source_code };

    ghost use Rattle.tptp_reader.specs.SourceView.{the_source};

    ghost view = { λ a. the_source a.inner.value };

    ghost size = { source_size };

    ghost use Rattle.tptp_reader.specs.Falls.{box-falls};

    ghost size_decreases = { λ a _. box-falls a.inner.value };
}

impl SourceBox {
    pub fn new(alloc: Global, source: Source) -> Result<SourceBox, NoMemory>
        ensures { IfOk result (λ b. b ≡ the_source source) }
    {
        let inner = Box::new(alloc, source)?;
        Ok(SourceBox { inner })
    }

    pub fn get(&self) -> &Source
        ensures { the_source result.now ≡ self.now }
    {
        &self.inner
    }
}

#[derive(Drop)]
#[cycle(source)]
pub struct SourceList {
    items: Vec<Source>,
}

impl Model for SourceList {
    ghost use Rattle.std.specs.Prelude.{List, map};
    ghost use Rattle.tptp_reader.specs.Sources as tree;
    ghost use Rattle.tptp_reader.specs.Codes.{source_list_code};
    ghost use Rattle.tptp_reader.specs.Sizes.{source_list_size};

    ghost Value = { List tree.Source };

    ghost coded = { source_list_code };

    ghost use Rattle.tptp_reader.specs.SourceView.{the_source};

    ghost view = { λ a. map the_source a.items.items };

    ghost size = { source_list_size };

    ghost use Rattle.tptp_reader.specs.Falls.{source-falls};

    ghost size_decreases = { λ a _. source-falls a.items.items };
}

impl SourceList {
    pub fn new(alloc: Global) -> SourceList
        ensures { result ≡ [] }
    {
        SourceList {
            items: Vec::new(alloc),
        }
    }

    // Room for one more. Most chains have two formulas, and few have more than four.
    fn make_room(&mut self) -> Result<(), NoMemory>
        ensures { self.new ≡ self.old }
    {
        let len = self.items.as_slice().len();
        if len == 0 {
            self.items.reserve_exact(2)?;
        } else if len < 4 {
            self.items.reserve_exact(1)?;
        }
        Ok(())
    }

    pub fn push(&mut self, item: Source) -> Result<(), NoMemory>
        ensures ok { OnOk result (self.new ≡ self.old ++ the_source item ∷ []) }
        ensures err { OnErr result (self.new ≡ self.old) }
    {
        self.make_room()?;
        self.items.push(item)?;
        Ok(())
    }

    pub fn items(&self) -> &[Source]
        ensures { map the_source result.now ≡ self.now }
    {
        self.items.as_slice()
    }
}
