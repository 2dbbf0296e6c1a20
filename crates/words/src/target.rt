// What a road is linked to at one of its ends.
ghost use Rattle.std.specs.Prelude.{◌≡◌, ◌+◌, ◌<◌, length};
ghost use Rattle.model.specs.Tables.{target_in, target_words};
ghost use Rattle.words.specs.Fields.{target_read};

use crate::name::Name;
use crate::rows;

// A target that is present: a road, or a junction, by name; of a road its start, or its end. (No `Option` of a contact:
// the rules let one stand where none is given, and it is kept.)
#[derive(Clone, Copy, PartialEq, Eq, Debug)]
pub struct Target {
    pub is_junction: bool,
    pub name: Name,
    pub contact: bool,
    pub given: bool,
    pub along: bool,
}

impl Target {
    // The target from word `at` of a table on; none where it is absent.
    pub fn at(table: &[u32], at: usize) -> Option<Target>
        requires { at + 6 < length table.now }
        ensures { target_read result ≡ target_in table.now at }
    {
        if !rows::flag(table, at) {
            return None;
        }
        Some(Target {
            is_junction: rows::flag(table, at + 1),
            name: Name::at(table, at + 2),
            contact: rows::flag(table, at + 4),
            given: rows::flag(table, at + 5),
            along: rows::flag(table, at + 6),
        })
    }

    // The seven words of a target; seven zeros where it is absent.
    pub fn words(target: Option<Target>) -> [u32; 7]
        ensures { result ≡ target_words (target_read target) }
    {
        let Some(target) = target else {
            return [0; 7];
        };
        [
            1,
            u32::from(target.is_junction),
            target.name.start,
            target.name.size,
            u32::from(target.contact),
            u32::from(target.given),
            u32::from(target.along),
        ]
    }
}
