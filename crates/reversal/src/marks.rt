// Marks by row and by name, and what a mark turns.
ghost use Rattle.std.specs.Prelude.{◌≡◌, true, suc, ◌/◌, ◌≤◌, ◌<◌, Some, length};
ghost use Rattle.model.specs.Lists.{ascends, map_o};
ghost use Rattle.model.specs.Reversal.{reverse_target, signed};
ghost use Rattle.words.specs.Chain.{stored};
ghost use Rattle.words.specs.Fields.{target_read};
ghost use Rattle.words.specs.Name.{place_of};
ghost use Rattle.words.specs.Rows.{all};
ghost use Rattle.rules.specs.ByRow.{numbers_at};
ghost use Rattle.reversal.specs.Turned.{mark_at, mark_of, names_marked};

use rules::parts::Sections;
use tables::lookup::RoadId;
use words::by_key::ByName;
use words::name::Name;
use words::target::Target;
use words::{numbers, rows};

// The roads by name, their sections, and a mark for each.
#[derive(Clone, Copy)]
pub struct Turning<'a> {
    pub roads: ByName<'a, 20>,
    pub sections: Sections<'a>,
    pub marks: &'a [u32],
    ghost same: { sections.roads.now ≡ roads.rows.now },
    ghost up: { all (length roads.rows.now / 20)
        (λ i. ascends (numbers_at roads.rows.now sections.sections.now i)) ≡ true },
    ghost even: { length marks.now ≡ length roads.rows.now / 20 },
}

impl<'a> Turning<'a> {
    // Roads whose numbers ascend, and that have a mark each.
    pub fn over(roads: ByName<'a, 20>, sections: Sections<'a>, marks: &'a [u32]) -> Self
        requires same { sections.roads.now ≡ roads.rows.now }
        requires up { all (length roads.rows.now / 20)
            (λ i. ascends (numbers_at roads.rows.now sections.sections.now i)) ≡ true }
        requires even { length marks.now ≡ length roads.rows.now / 20 }
        ensures roads { (result.roads.text.now ≡ roads.entry.text.now)
            × (result.roads.rows.now ≡ roads.entry.rows.now) }
        ensures sections { result.sections.sections.now ≡ sections.entry.sections.now }
        ensures marks { result.marks.now ≡ marks.now }
    {
        Turning {
            roads,
            sections,
            marks,
        }
    }

    // The section numbers of a road.
    pub fn numbers(&self, road: RoadId) -> &'a [u32]
        requires { road.0 < length self.now.roads.rows.now / 20 }
        ensures { result.now ≡ numbers_at self.now.roads.rows.now self.now.sections.sections.now road.0 }
    {
        self.sections.numbers(road.0 as usize)
    }

    // Whether a road is marked.
    pub fn is_marked(&self, road: RoadId) -> bool
        requires { road.0 < length self.now.roads.rows.now / 20 }
        ensures { result ≡ mark_at self.now.marks.now (suc road.0) }
    {
        rows::flag(self.marks, road.0 as usize)
    }

    // Whether the road of a row that a search gave is marked; none is not.
    pub fn mark_at(&self, road: Option<usize>) -> bool
        requires { stored road ≤ length self.now.marks.now }
        ensures { result ≡ mark_at self.now.marks.now (stored road) }
    {
        road.is_some_and(|r| rows::flag(self.marks, r))
    }

    // Whether the road of that name is marked; an unknown one is not.
    pub fn marked(&self, name: Name) -> bool
        ensures { result ≡ mark_of self.now.roads.text.now self.now.roads.rows.now self.now.marks.now (place_of name) }
    {
        self.mark_at(self.roads.find(name))
    }

    // Whether a target names a marked road.
    fn leads(&self, target: Target) -> bool
        ensures { result ≡ names_marked (mark_of self.now.roads.text.now self.now.roads.rows.now self.now.marks.now)
            (target_read (Some target)) }
    {
        !target.is_junction && self.marked(target.name)
    }

    // Whether a target that may be absent names a marked road.
    // (No `is_some_and`: the check learns nothing of a closure on self without clauses, and with them it is longer.)
    pub fn to_marked(&self, target: Option<Target>) -> bool
        ensures { result ≡ names_marked (mark_of self.now.roads.text.now self.now.roads.rows.now self.now.marks.now)
            (target_read target) }
    {
        match target {
            Some(target) => self.leads(target),
            None => false,
        }
    }

    // A target, reversed: its contact turns over if it names a marked road.
    pub fn turned(&self, target: Option<Target>) -> Option<Target>
        ensures { target_read result ≡ map_o (reverse_target (mark_of self.now.roads.text.now self.now.roads.rows.now
            self.now.marks.now)) (target_read target) }
    {
        let target = target?;
        Some(Target {
            contact: target.contact != self.leads(target),
            ..target
        })
    }
}

// A lane number, with its sign changed if the mark is set.
pub fn signed_by(mark: bool, number: u32) -> u32
    ensures { result ≡ signed mark number }
{
    if mark {
        numbers::negate(number)
    } else {
        number
    }
}
