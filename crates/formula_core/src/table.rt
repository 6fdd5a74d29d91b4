//! The table of the lists of ground terms, marks and values.

ghost use Rattle.std.specs.Prelude.{◌≡◌, ◌<◌, ◌≤◌, ◌↔◌, [], length, map, IsTrue, IsNone, IfSome, IfOk, OnErr};
ghost use Rattle.std.specs.List.{AllByRecursion};
ghost use Rattle.formula_core.specs.GroundLists.{list_at, no_list, of_terms, of_marks, of_values, the_terms, the_marks, the_values, the_g_term, the_mark, the_value};
ghost use Rattle.formula_core.specs.GroundLists.{IsNormalTerm, IsNormalMark, IsNormalValue, AreNormalTerms, AreNormalMarks, AreNormalValues};
ghost use Rattle.formula_core.specs.GroundLists.{IsLowerTerm, IsLowerMark, IsLowerValue, IsGrown};
ghost use Rattle.formula_core.specs.GroundTables.{items_of, list_of, AreNormalItems, AreApart, IsRead};

use crate::ground::{GroundLabel, GroundMark, GroundTerm, GroundTerms, Value, Values};
use cop_base::NoMemory;
use indexmap::IndexSet;
use std::alloc::Global;
use std::marker::Model;

/// A list of one kind as a table keeps it.
#[derive(PartialEq, Eq, Hash, Drop)]
pub enum Entry {
    Terms(Vec<GroundTerm>),
    Marks(Vec<GroundMark>),
    Values(Vec<Value>),
}

// The same items again.
fn copied<T: Copy + Drop>(alloc: Global, items: &[T]) -> Result<Vec<T>, NoMemory>
    ensures { IfOk result (λ v. v.items ≡ items.now) }
{
    let mut all = Vec::new(alloc);
    for item in items {
        all.push(*item)?;
    }
    Ok(all)
}

impl Entry {
    // An entry with the same items.
    fn copy(&self, alloc: Global) -> Result<Entry, NoMemory>
        ensures { IfOk result (λ e. items_of e ≡ items_of self.now) }
    {
        match self {
            Entry::Terms(items) => {
                let items = copied(alloc, items)?;
                Ok(Entry::Terms(items))
            }
            Entry::Marks(items) => {
                let items = copied(alloc, items)?;
                Ok(Entry::Marks(items))
            }
            Entry::Values(items) => {
                let items = copied(alloc, items)?;
                Ok(Entry::Values(items))
            }
        }
    }
}

/// The lists of ground terms, marks and values. Each is kept once, and names lists before it by
/// their numbers. A number that is not that of a list of the kind that is asked for stands for the
/// empty list.
#[derive(Drop)]
pub struct GroundTable {
    alloc: Global,
    entries: IndexSet<Entry>,
}

impl Model for GroundTable {
    ghost use Rattle.std.specs.Prelude.{List, [], map};
    ghost use Rattle.formula_core.specs.GroundLists.{GroundList};
    ghost use Rattle.formula_core.specs.GroundListCodes.{ground_lists_code};
    ghost use Rattle.formula_core.specs.GroundTables.{IsTable, items_of, lists_from};

    ghost Value = { List GroundList };

    ghost coded = { ground_lists_code };

    ghost view = { λ t. lists_from [] (map items_of t.entries.keys) };

    ghost invariant = { λ t. IsTable (map items_of t.entries.keys) };
}

impl GroundTable {
    /// The number of the empty lists, which a table need not keep.
    pub const EMPTY: u32 = u32::MAX;

    /// The empty table.
    pub fn new(alloc: Global) -> GroundTable
        ensures { result ≡ [] }
    {
        GroundTable {
            alloc,
            entries: IndexSet::new(alloc),
        }
    }

    /// A table with the same lists under the same numbers.
    pub fn copy(&self, alloc: Global) -> Result<GroundTable, NoMemory>
        ensures { IfOk result (λ t. t ≡ self.now) }
    {
        let given = self.entries.as_slice();
        let mut entries = IndexSet::new(alloc);
        for entry in given {
            entries.insert(entry.copy(alloc)?)?;
        }
        Ok(GroundTable { alloc, entries })
    }

    /// How many lists there are. Each has a number below this one.
    pub fn len(&self) -> usize
        ensures len { result ≡ length self.now }
        ensures most { result ≤ no_list }
    {
        self.entries.len()
    }

    fn entry(&self, number: u32) -> Option<&Entry>
        ensures found { IfSome result (λ e. IsRead self.now number (items_of e.now)) }
        ensures none { IsNone result → length self.now ≤ number }
    {
        self.entries.get_index(number as usize)
    }

    /// The terms of a list.
    #[tactic(auto, using(crate::proofs::EntryLaws::reading))]
    pub fn terms(&self, list: GroundTerms) -> &[GroundTerm]
        ensures list { map (the_g_term self.now) result.now ≡ the_terms self.now list }
        ensures normal { AllByRecursion (IsNormalTerm self.now) result.now }
        ensures lower { AllByRecursion (IsLowerTerm self.now list.0) result.now }
    {
        match self.entry(list.0) {
            Some(Entry::Terms(items)) => items.as_slice(),
            Some(Entry::Marks(_)) => &[],
            Some(Entry::Values(_)) => &[],
            None => &[],
        }
    }

    /// The characters of a label.
    #[tactic(auto, using(crate::proofs::EntryLaws::reading))]
    pub fn marks(&self, list: GroundLabel) -> &[GroundMark]
        ensures list { map (the_mark self.now) result.now ≡ the_marks self.now list }
        ensures normal { AllByRecursion (IsNormalMark self.now) result.now }
        ensures lower { AllByRecursion (IsLowerMark self.now list.0) result.now }
    {
        match self.entry(list.0) {
            Some(Entry::Marks(items)) => items.as_slice(),
            Some(Entry::Terms(_)) => &[],
            Some(Entry::Values(_)) => &[],
            None => &[],
        }
    }

    /// The values of a list.
    #[tactic(auto, using(crate::proofs::EntryLaws::reading))]
    pub fn values(&self, list: Values) -> &[Value]
        ensures list { map (the_value self.now) result.now ≡ the_values self.now list }
        ensures normal { AllByRecursion (IsNormalValue self.now) result.now }
        ensures lower { AllByRecursion (IsLowerValue self.now list.0) result.now }
    {
        match self.entry(list.0) {
            Some(Entry::Values(items)) => items.as_slice(),
            Some(Entry::Terms(_)) => &[],
            Some(Entry::Marks(_)) => &[],
            None => &[],
        }
    }

    // The number of the empty lists.
    fn empty(&self) -> u32
        ensures number { result ≡ no_list }
        ensures most { length self.now ≤ no_list }
        ensures apart { AreApart self.now }
    {
        let _read_for_its_invariant = &self.entries;
        Self::EMPTY
    }

    /// The same list by its one number: all that stand for the empty list become `EMPTY`.
    #[tactic(auto, using(crate::proofs::EntryLaws::normal))]
    pub fn normal_terms(&self, list: GroundTerms) -> GroundTerms
        ensures same { the_terms self.now result ≡ the_terms self.now list }
        ensures normal { AreNormalTerms self.now result }
        ensures apart { AreApart self.now }
    {
        let empty = self.empty();
        if self.terms(list).is_empty() {
            return GroundTerms(empty);
        }
        list
    }

    /// The same list by its one number: all that stand for the empty list become `EMPTY`.
    #[tactic(auto, using(crate::proofs::EntryLaws::normal))]
    pub fn normal_marks(&self, list: GroundLabel) -> GroundLabel
        ensures same { the_marks self.now result ≡ the_marks self.now list }
        ensures normal { AreNormalMarks self.now result }
        ensures apart { AreApart self.now }
    {
        let empty = self.empty();
        if self.marks(list).is_empty() {
            return GroundLabel(empty);
        }
        list
    }

    /// The same list by its one number: all that stand for the empty list become `EMPTY`.
    #[tactic(auto, using(crate::proofs::EntryLaws::normal))]
    pub fn normal_values(&self, list: Values) -> Values
        ensures same { the_values self.now result ≡ the_values self.now list }
        ensures normal { AreNormalValues self.now result }
        ensures apart { AreApart self.now }
    {
        let empty = self.empty();
        if self.values(list).is_empty() {
            return Values(empty);
        }
        list
    }

    /// The same term, which names its list by the one number.
    pub fn normal_term(&self, term: GroundTerm) -> GroundTerm
        ensures same { the_g_term self.now result ≡ the_g_term self.now term }
        ensures normal { IsNormalTerm self.now result }
        ensures apart { AreApart self.now }
    {
        let _known = self.empty();
        match term {
            GroundTerm::Fun(f, args) => GroundTerm::Fun(f, self.normal_terms(args)),
            GroundTerm::Eigen(p, values) => GroundTerm::Eigen(p, self.normal_values(values)),
            GroundTerm::Common(k) => GroundTerm::Common(k),
            GroundTerm::Own(k, label) => GroundTerm::Own(k, self.normal_marks(label)),
        }
    }

    /// The same character, which names its list by the one number.
    pub fn normal_mark(&self, mark: GroundMark) -> GroundMark
        ensures same { the_mark self.now result ≡ the_mark self.now mark }
        ensures normal { IsNormalMark self.now result }
        ensures apart { AreApart self.now }
    {
        let _known = self.empty();
        match mark {
            GroundMark::New(p, values) => GroundMark::New(p, self.normal_values(values)),
            GroundMark::Spare(k) => GroundMark::Spare(k),
        }
    }

    /// The same value, which names its list by the one number.
    pub fn normal_value(&self, value: Value) -> Value
        ensures same { the_value self.now result ≡ the_value self.now value }
        ensures normal { IsNormalValue self.now result }
        ensures apart { AreApart self.now }
    {
        let _known = self.empty();
        match value {
            Value::Term(term) => Value::Term(self.normal_term(term)),
            Value::Steps(label) => Value::Steps(self.normal_marks(label)),
        }
    }

    /// Whether both stand for the same list.
    #[tactic(auto, using(crate::proofs::GroundTableLaws::alike))]
    pub fn are_same_terms(&self, first: GroundTerms, second: GroundTerms) -> bool
        ensures { IsTrue result ↔ (the_terms self.now first ≡ the_terms self.now second) }
    {
        self.normal_terms(first) == self.normal_terms(second)
    }

    /// Whether both stand for the same list.
    #[tactic(auto, using(crate::proofs::GroundTableLaws::alike))]
    pub fn are_same_marks(&self, first: GroundLabel, second: GroundLabel) -> bool
        ensures { IsTrue result ↔ (the_marks self.now first ≡ the_marks self.now second) }
    {
        self.normal_marks(first) == self.normal_marks(second)
    }

    /// Whether both stand for the same list.
    #[tactic(auto, using(crate::proofs::GroundTableLaws::alike))]
    pub fn are_same_values(&self, first: Values, second: Values) -> bool
        ensures { IsTrue result ↔ (the_values self.now first ≡ the_values self.now second) }
    {
        self.normal_values(first) == self.normal_values(second)
    }

    /// Whether both stand for the same one.
    #[tactic(auto, using(crate::proofs::GroundTableLaws::alike))]
    pub fn is_same_term(&self, first: GroundTerm, second: GroundTerm) -> bool
        ensures { IsTrue result ↔ (the_g_term self.now first ≡ the_g_term self.now second) }
    {
        self.normal_term(first) == self.normal_term(second)
    }

    /// Whether both stand for the same one.
    #[tactic(auto, using(crate::proofs::GroundTableLaws::alike))]
    pub fn is_same_mark(&self, first: GroundMark, second: GroundMark) -> bool
        ensures { IsTrue result ↔ (the_mark self.now first ≡ the_mark self.now second) }
    {
        self.normal_mark(first) == self.normal_mark(second)
    }

    /// Whether both stand for the same one.
    #[tactic(auto, using(crate::specs::GroundEq::tree_equality))]
    pub fn is_same_value(&self, first: Value, second: Value) -> bool
        ensures { IsTrue result ↔ (the_value self.now first ≡ the_value self.now second) }
    {
        match (first, second) {
            (Value::Term(t), Value::Term(u)) => self.is_same_term(t, u),
            (Value::Steps(v), Value::Steps(w)) => self.are_same_marks(v, w),
            (Value::Term(_), Value::Steps(_)) => false,
            (Value::Steps(_), Value::Term(_)) => false,
        }
    }

    // The number of an entry, which is appended where it is new.
    fn add(&mut self, entry: Entry) -> Result<u32, NoMemory>
        requires { AreNormalItems self.old (items_of entry) }
        ensures place { IfOk result (λ n. n < length self.new) }
        ensures list { IfOk result (λ n. list_at self.new n ≡ list_of self.old (items_of entry)) }
        ensures grown { IsGrown self.old self.new }
        ensures err { OnErr result (self.new ≡ self.old) }
    {
        if self.entries.len() >= Self::EMPTY as usize {
            return Err(NoMemory);
        }
        let (index, _) = self.entries.insert_full(entry)?;
        Ok(index as u32)
    }

    fn terms_entry(&self, items: &[GroundTerm]) -> Result<Entry, NoMemory>
        ensures list { IfOk result (λ e. list_of self.now (items_of e) ≡ of_terms (map (the_g_term self.now) items.now)) }
        ensures normal { IfOk result (λ e. AreNormalItems self.now (items_of e)) }
    {
        let mut normal = Vec::new(self.alloc);
        for item in items {
            normal.push(self.normal_term(*item))?;
        }
        Ok(Entry::Terms(normal))
    }

    fn marks_entry(&self, items: &[GroundMark]) -> Result<Entry, NoMemory>
        ensures list { IfOk result (λ e. list_of self.now (items_of e) ≡ of_marks (map (the_mark self.now) items.now)) }
        ensures normal { IfOk result (λ e. AreNormalItems self.now (items_of e)) }
    {
        let mut normal = Vec::new(self.alloc);
        for item in items {
            normal.push(self.normal_mark(*item))?;
        }
        Ok(Entry::Marks(normal))
    }

    fn values_entry(&self, items: &[Value]) -> Result<Entry, NoMemory>
        ensures list { IfOk result (λ e. list_of self.now (items_of e) ≡ of_values (map (the_value self.now) items.now)) }
        ensures normal { IfOk result (λ e. AreNormalItems self.now (items_of e)) }
    {
        let mut normal = Vec::new(self.alloc);
        for item in items {
            normal.push(self.normal_value(*item))?;
        }
        Ok(Entry::Values(normal))
    }

    /// The list of these items, which is appended where it is new. Numbers that the table gave before
    /// stand for the same lists as before.
    #[tactic(auto, using(crate::proofs::EntryLaws::adding))]
    pub fn add_terms(&mut self, items: &[GroundTerm]) -> Result<GroundTerms, NoMemory>
        ensures list { IfOk result (λ n. the_terms self.new n ≡ map (the_g_term self.old) items.now) }
        ensures normal { IfOk result (λ n. AreNormalTerms self.new n) }
        ensures grown { IsGrown self.old self.new }
        ensures err { OnErr result (self.new ≡ self.old) }
    {
        let empty = self.empty();
        if items.is_empty() {
            return Ok(GroundTerms(empty));
        }
        let entry = self.terms_entry(items)?;
        let number = self.add(entry)?;
        Ok(GroundTerms(number))
    }

    /// The list of these items, which is appended where it is new. Numbers that the table gave before
    /// stand for the same lists as before.
    #[tactic(auto, using(crate::proofs::EntryLaws::adding))]
    pub fn add_marks(&mut self, items: &[GroundMark]) -> Result<GroundLabel, NoMemory>
        ensures list { IfOk result (λ n. the_marks self.new n ≡ map (the_mark self.old) items.now) }
        ensures normal { IfOk result (λ n. AreNormalMarks self.new n) }
        ensures grown { IsGrown self.old self.new }
        ensures err { OnErr result (self.new ≡ self.old) }
    {
        let empty = self.empty();
        if items.is_empty() {
            return Ok(GroundLabel(empty));
        }
        let entry = self.marks_entry(items)?;
        let number = self.add(entry)?;
        Ok(GroundLabel(number))
    }

    /// The list of these items, which is appended where it is new. Numbers that the table gave before
    /// stand for the same lists as before.
    #[tactic(auto, using(crate::proofs::EntryLaws::adding))]
    pub fn add_values(&mut self, items: &[Value]) -> Result<Values, NoMemory>
        ensures list { IfOk result (λ n. the_values self.new n ≡ map (the_value self.old) items.now) }
        ensures normal { IfOk result (λ n. AreNormalValues self.new n) }
        ensures grown { IsGrown self.old self.new }
        ensures err { OnErr result (self.new ≡ self.old) }
    {
        let empty = self.empty();
        if items.is_empty() {
            return Ok(Values(empty));
        }
        let entry = self.values_entry(items)?;
        let number = self.add(entry)?;
        Ok(Values(number))
    }
}
