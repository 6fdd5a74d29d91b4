//! Labels that share their beginnings, each at one place.

ghost use Rattle.std.specs.Prelude.{◌≡◌, ◌==◌, ◌<◌, ◌≤◌, ◌++◌, ◌∷◌, [], get_or, length, map, suc};
ghost use Rattle.std.specs.Prelude.{IfOk, IfSome, IsNone, List, OnErr, OnOk};
ghost use Rattle.calculus.specs.Derivations as derivation;
ghost use Rattle.calculus.specs.Derivations.{character_eq};
ghost use Rattle.calculus.specs.Equality.{list_eq};
ghost use Rattle.calculus.specs.Labels.{is_prefix, pi_label};
ghost use Rattle.label_table.specs.LabelTable.{IsRung, IsRungFrom, the_last};
ghost use Rattle.label_table.specs.Longer.{IsLonger};
ghost use Rattle.label_table.specs.LabelTable.{HasEachOnce, IsLabelAt};
ghost use Rattle.logic_rules.specs.MarkView.{the_character};

use crate::places::place_of;
use cop_base::NoMemory;
use indexmap::IndexMap;
use logic_rules::{Label, Logic, Mark};
use std::alloc::Global;
use std::marker::Model;

/// A label by the place of what stands before its last mark, and that mark.
#[derive(Clone, Copy, PartialEq, Eq, Hash)]
struct Link {
    front: u32,
    is_new: bool,
    number: u32,
}

/// Where the beginnings of a label are found: the place of what stands before its last mark, and
/// that of a further beginning. With the lengths that `jump_after` chooses the way to a beginning
/// of any length has logarithmically many steps (Myers, "An applicative random-access stack").
#[derive(Clone, Copy)]
struct Rung {
    front: u32,
    length: u32,
    jump: u32,
}

/// A table of labels. The first one is the root, and each other one adds a mark to another label
/// of the table. No label has two places.
#[derive(Drop)]
pub struct Labels {
    links: IndexMap<Link, Rung>,
}

impl Model for Labels {
    ghost use Rattle.std.specs.Prelude.{List, map};
    ghost use Rattle.calculus.specs.Derivations as derivation;
    ghost use Rattle.label_table.specs.Chains.{AreBackward};
    ghost use Rattle.label_table.specs.LabelTable.{AreApart, AreRungs, label_table};
    ghost use Rattle.label_table.specs.LabelTable.{the_label_link};

    ghost Value = { List derivation.Label };

    ghost view = { λ s. label_table s.links.entries };

    ghost invariant = { λ s. AreBackward 1 (map the_label_link s.links.entries)
        × AreApart (map the_label_link s.links.entries)
        × AreRungs (label_table s.links.entries) s.links.entries };
}

fn link_of(front: u32, mark: Mark) -> Link
    ensures front { result.front ≡ front }
    ensures last { the_last result ≡ the_character mark }
{
    match mark {
        Mark::New(number) => Link {
            front,
            is_new: true,
            number,
        },
        Mark::Spare(number) => Link {
            front,
            is_new: false,
            number,
        },
    }
}

fn mark_of(link: Link) -> Mark
    ensures { the_character result ≡ the_last link }
{
    if link.is_new {
        Mark::New(link.number)
    } else {
        Mark::Spare(link.number)
    }
}

impl Labels {
    /// The table of the root.
    pub fn new(alloc: Global) -> Labels
        ensures { result ≡ [] ∷ [] }
    {
        Labels {
            links: IndexMap::new(alloc),
        }
    }

    /// The place of the root.
    pub fn root(&self) -> u32
        ensures within { result < length self.now }
        ensures root { get_or self.now result [] ≡ [] }
        ensures once { HasEachOnce self.now }
    {
        let _read_for_its_invariant = &self.links;
        0
    }

    fn rung(&self, place: u32) -> Rung
        requires { place < length self.now }
        ensures { IsRung self.now place result }
    {
        let links = &self.links;
        if place == 0 {
            return Rung {
                front: 0,
                length: 0,
                jump: 0,
            };
        }
        links[place as usize - 1]
    }

    /// How many marks the label at a place has.
    pub fn length(&self, place: u32) -> u32
        requires { place < length self.now }
        ensures { result ≡ length (get_or self.now place []) }
    {
        self.rung(place).length
    }

    /// The last mark of the label at a place, and the place of what stands before it. Only the root
    /// has none.
    pub fn last(&self, place: u32) -> Option<(u32, Mark)>
        requires { place < length self.now }
        ensures none { IsNone result → get_or self.now place [] ≡ [] }
        ensures before { IfSome result (λ x. x.0 < place) }
        ensures some { IfSome result (λ x. get_or self.now place []
            ≡ get_or self.now x.0 [] ++ the_character x.1 ∷ []) }
    {
        let links = &self.links;
        if place == 0 {
            return None;
        }
        match links.get_index(place as usize - 1) {
            Some((link, _)) => Some((link.front, mark_of(*link))),
            None => None,
        }
    }

    // The further beginning of the labels that add a mark to that of a place: it is twice as far
    // where two ways of one length follow each other.
    fn jump_after(&self, front: u32) -> u32
        requires { front < length self.now }
        ensures jump { result ≤ front }
        ensures begins { IsLonger (get_or self.now result []) (get_or self.now front []) }
    {
        let here = self.rung(front);
        let near = self.rung(here.jump);
        let far = self.rung(near.jump);
        if u64::from(here.length) + u64::from(far.length) == 2 * u64::from(near.length) {
            near.jump
        } else {
            front
        }
    }

    fn rung_after(&self, front: u32) -> Result<Rung, NoMemory>
        requires { front < length self.now }
        ensures { IfOk result (λ r. IsRungFrom self.now front r) }
    {
        let length = place_of(self.length(front) as usize + 1)?;
        let jump = self.jump_after(front);
        Ok(Rung {
            front,
            length,
            jump,
        })
    }

    /// The place of a label of the table with one mark more.
    pub fn extend(&mut self, front: u32, mark: Mark) -> Result<u32, NoMemory>
        requires { front < length self.old }
        ensures place { IfOk result (λ k.
            IsLabelAt self.new k (get_or self.old front [] ++ the_character mark ∷ [])) }
        ensures grown { OnOk result (IsLonger self.old self.new) }
        ensures once { OnOk result (HasEachOnce self.new) }
        ensures err { OnErr result (self.new ≡ self.old) }
    {
        let rung = self.rung_after(front)?;
        let _last = place_of(self.links.len() + 1)?;
        let (index, _) = self.links.insert_full(link_of(front, mark), rung)?;
        Ok(index as u32 + 1)
    }

    // How many labels stand behind the root.
    fn link_count(&self) -> usize
        ensures { length self.now ≡ suc result }
    {
        self.links.len()
    }

    // Takes away the labels behind the first ones.
    fn cut(&mut self, count: usize)
        ensures { (first : List derivation.Label) → IsLonger first self.old
            → length first ≡ suc count → self.new ≡ first }
    {
        self.links.truncate(count);
    }

    // Adds the beginnings of a label from the shortest on. Some stay where memory ends.
    fn add_beginnings(&mut self, label: &Label) -> Result<u32, NoMemory>
        ensures place { IfOk result (λ k. IsLabelAt self.new k label.now) }
        ensures grown { IsLonger self.old self.new }
        ensures once { OnOk result (HasEachOnce self.new) }
    {
        let mut place = self.root();
        for mark in label.items() {
            place = self.extend(place, *mark)?;
        }
        Ok(place)
    }

    /// Adds a label of a text. The answer is its place.
    pub fn add(&mut self, label: &Label) -> Result<u32, NoMemory>
        ensures place { IfOk result (λ k. IsLabelAt self.new k label.now) }
        ensures grown { OnOk result (IsLonger self.old self.new) }
        ensures once { OnOk result (HasEachOnce self.new) }
        ensures err { OnErr result (self.new ≡ self.old) }
    {
        let count = self.link_count();
        match self.add_beginnings(label) {
            Ok(place) => Ok(place),
            Err(error) => {
                self.cut(count);
                Err(error)
            }
        }
    }

    // The label behind which a pi step puts its mark.
    #[tactic(auto, using(calculus::proofs::LogicLaws::labels))]
    fn before_pi(&self, logic: Logic, from: u32) -> u32
        requires { from < length self.now }
        ensures within { result < length self.now }
        ensures before { (m : derivation.Mark)
            → pi_label logic (get_or self.now from []) m ≡ get_or self.now result [] ++ m ∷ [] }
    {
        if logic.keeps_prefix() {
            from
        } else {
            self.root()
        }
    }

    /// Adds the label of a pi step from that of a place with the new mark. In S5 that is the mark
    /// alone.
    pub fn add_after_pi(&mut self, logic: Logic, from: u32, mark: Mark) -> Result<u32, NoMemory>
        requires { from < length self.old }
        ensures place { IfOk result (λ k. IsLabelAt self.new k
            (pi_label logic (get_or self.old from []) (the_character mark))) }
        ensures grown { OnOk result (IsLonger self.old self.new) }
        ensures err { OnErr result (self.new ≡ self.old) }
    {
        let front = self.before_pi(logic, from);
        let place = self.extend(front, mark)?;
        Ok(place)
    }

    /// Whether the labels at two places have the same marks in the same order.
    pub fn are_equal(&self, first: u32, second: u32) -> bool
        requires first { first < length self.now }
        requires second { second < length self.now }
        ensures { result
            ≡ list_eq character_eq (get_or self.now first []) (get_or self.now second []) }
    {
        let _read_for_its_invariant = &self.links;
        first == second
    }

    // The place of a shorter beginning of a label, which is not shorter than this.
    fn shorter(&self, at: u32, least: u32) -> u32
        requires within { at < length self.now }
        requires longer { least < length (get_or self.now at []) }
        ensures before { result < at }
        ensures begins { IsLonger (get_or self.now result []) (get_or self.now at []) }
        ensures least { least ≤ length (get_or self.now result []) }
    {
        let rung = self.rung(at);
        if self.length(rung.jump) >= least {
            rung.jump
        } else {
            rung.front
        }
    }

    /// Whether the label at the second place begins with that at the first.
    pub fn begins(&self, first: u32, second: u32) -> bool
        requires first { first < length self.now }
        requires second { second < length self.now }
        ensures { result
            ≡ is_prefix character_eq (get_or self.now first []) (get_or self.now second []) }
    {
        let least = self.length(first);
        let mut at = second;
        while self.length(at) > least {
            at = self.shorter(at, least);
        }
        self.are_equal(first, at)
    }
}
