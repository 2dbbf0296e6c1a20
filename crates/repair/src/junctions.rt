// The junctions in row order: each reads the roads as those before it left them.
ghost use Rattle.std.specs.Prelude.{◌≡◌, List, ℕ, [], ◌∷◌, ◌++◌, ◌+◌, ◌*◌, ◌/◌, ◌≤◌, ◌<◌, length, get_or};
ghost use Rattle.model.specs.Tables.{kind_word};
ghost use Rattle.words.specs.Fields.{junction_kind};
ghost use Rattle.words.specs.Map.{map_read};
ghost use Rattle.repair.specs.Laying.{repaired_at, Twice, Blank, Laid, Stepped, Over, laid_words};
ghost use Rattle.repair.specs.Ready.{connections_before};

use crate::junction::Junction;
use crate::laid::LaidRows;
use crate::laying::Pile;
use crate::links::missing_links;
use crate::reads::Reads;
use crate::reversed::reversed;
use crate::targets::Ends;
use words::kinds::JunctionKind;
use words::name::Name;

// What repair has made so far: the roads' ends, and the rows of junctions, connections, pairs and warnings.
#[derive(Drop)]
pub struct State {
    pub ends: Ends,
    pub junctions: LaidRows<5, 81920>,
    pub pile: Pile,
    pub warnings: LaidRows<4, 32768>,
}

// Lays a junction's connections: its own, and those of a direct junction the other way.
fn lay_junction(junction: &Junction, ends: &Ends, pile: &mut Pile)
    requires { Twice (map_read junction.now.reads.map) junction.now.row pile.old }
    ensures twice { Twice (map_read junction.now.reads.map) (junction.now.row + 1) pile.new }
    ensures laid { Laid (repaired_at (map_read junction.now.reads.map) ends.now.words junction.now.row).connections
        pile.old pile.new }
{
    pile.put_own(junction);
    if let JunctionKind::Direct = junction.kind {
        reversed(junction, ends, pile);
    }
}

// Lays a junction's row: its part is of the count of connections from row n on.
fn put_junction(junction: &Junction, n: usize, count: usize, out: &mut LaidRows<5, 81920>)
    requires { (out.old.rows < 16384) × (n ≤ 16384) × (count ≤ 16384) }
    ensures rows { out.new.rows ≡ out.old.rows + 1 }
    ensures words { let junctions : List ℕ = junction.now.reads.map.junctions.now in
        laid_words out.new ≡ laid_words out.old
        ++ (get_or junctions (junction.now.row * 5) 0 ∷ get_or junctions (junction.now.row * 5 + 1) 0
        ∷ kind_word (junction_kind junction.now.kind) ∷ n ∷ count ∷ []) }
{
    let name = Name::at(junction.reads.map.junctions, junction.row * 5);
    let kind = u32::from(junction.kind);
    out.put(&[name.start, name.size, kind, n as u32, count as u32]);
}

impl State {
    // Repairs a junction.
    fn repair_junction(&mut self, junction: &Junction)
        requires { (self.old.junctions.rows ≡ junction.now.row)
            × Twice (map_read junction.now.reads.map) junction.now.row self.old.pile
            × (self.old.warnings.rows ≤ connections_before junction.now.reads.map.junctions.now junction.now.row) }
        ensures twice { Twice (map_read junction.now.reads.map) (junction.now.row + 1) self.new.pile }
        ensures warnings { self.new.warnings.rows
            ≤ connections_before junction.now.reads.map.junctions.now (junction.now.row + 1) }
        ensures stepped { Stepped (map_read junction.now.reads.map) junction.now.row self.old self.new }
    {
        let start = self.pile.connections.rows;
        lay_junction(junction, &self.ends, &mut self.pile);
        let count = self.pile.connections.rows - start;
        put_junction(junction, start, count, &mut self.junctions);
        if let JunctionKind::Common = junction.kind {
            missing_links(junction, &mut self.ends, &mut self.warnings);
        }
    }

    // Repairs the junctions.
    pub fn junctions(&mut self, reads: &Reads)
        requires { Blank self.old }
        ensures { Over (map_read reads.now.map) (length reads.now.map.junctions.now / 5) self.old self.new }
    {
        for k in 0..reads.map.junctions.len() / 5 {
            let junction = Junction::at(reads, k);
            self.repair_junction(&junction);
        }
    }
}
