// 4 and 5: parts that follow one another and end with the last row; section numbers that ascend.
ghost use Rattle.std.specs.Prelude.{◌≡◌, ◌&&◌, true, ◌+◌, ◌*◌, ◌/◌, ◌≤◌, ◌<◌, length};
ghost use Rattle.model.specs.Lists.{ascends};
ghost use Rattle.model.specs.Rows.{table, parts_fit};
ghost use Rattle.model.specs.Tables.{roads_in};
ghost use Rattle.model.specs.Rules.{section_parts_fit, sections_ascend, connection_parts_fit, pair_parts_fit};
ghost use Rattle.words.specs.Rows.{all};
ghost use Rattle.words.specs.Chain.{stored};
ghost use Rattle.rules.specs.ByRow.{listed_by, numbers_at};

use words::map::MapTables;
use words::rows;

// Whether the parts in words kf and kc of the rows cover n rows.
pub fn parts_fit(ws: &[u32], w: usize, kf: usize, kc: usize, n: usize) -> bool
    requires { (0 < w) × (w ≤ 20) × (kf < w) × (kc < w) × (n ≤ 16384) }
    ensures { result ≡ parts_fit kf kc 0 n (table w ws.now) }
{
    let mut at = 0;
    for row in ws.chunks_exact(w) {
        let count = rows::word(row, kc);
        if rows::word(row, kf) != at || n - at < count {
            return false;
        }
        at += count;
    }
    at == n
}

// Whether each number is below the next.
pub fn ascending(part: &[u32]) -> bool
    ensures { result ≡ ascends part.now }
{
    part.windows(2).all(|pair| pair[0] < pair[1])
}

// The roads, and the sections of which each has its part.
#[derive(Clone, Copy)]
pub struct Sections<'a> {
    pub roads: &'a [u32],
    pub sections: &'a [u32],
    ghost fit: { parts_fit 18 19 0 (length sections.now) (table 20 roads.now) ≡ true },
}

impl<'a> Sections<'a> {
    // Tables whose parts fit.
    pub fn over(roads: &'a [u32], sections: &'a [u32]) -> Self
        requires { parts_fit 18 19 0 (length sections.now) (table 20 roads.now) ≡ true }
        ensures { (result.roads.now ≡ roads.now) × (result.sections.now ≡ sections.now) }
    {
        Sections { roads, sections }
    }

    // The section numbers of a road.
    pub fn numbers(&self, road: usize) -> &'a [u32]
        requires { road < length self.now.roads.now / 20 }
        ensures { result.now ≡ numbers_at self.now.roads.now self.now.sections.now road }
    {
        let first = rows::word(self.roads, road * 20 + 18);
        let count = rows::word(self.roads, road * 20 + 19);
        &self.sections[first..first + count]
    }

    // Whether a section is listed in a road; in none where there is no road. (A scan: a road has few sections.)
    // (No `is_some_and`: the check learns nothing of a closure on self without clauses, and with them it is longer.)
    pub fn lists(&self, road: Option<usize>, section: u32) -> bool
        requires { stored road ≤ length self.now.roads.now / 20 }
        ensures { result ≡ listed_by self.now.roads.now self.now.sections.now (stored road) section }
    {
        match road {
            Some(r) => self.numbers(r).contains(&section),
            None => false,
        }
    }

    // Whether each road's numbers ascend.
    pub fn ascend(&self) -> bool
        ensures { result ≡ all (length self.now.roads.now / 20)
            (λ i. ascends (numbers_at self.now.roads.now self.now.sections.now i)) }
    {
        (0..self.roads.len() / 20).all(|road| ascending(self.numbers(road)))
    }
}

// 4
#[tactic(auto, using(crate::proofs::Forms::sections_ascend_lem), unfolding(model::specs::Rules::section_parts_fit))]
pub fn sections_fit(roads: &[u32], sections: &[u32]) -> bool
    requires { length sections.now ≤ 16384 }
    ensures { result ≡ (section_parts_fit sections.now roads.now
        && sections_ascend (roads_in sections.now roads.now)) }
{
    parts_fit(roads, 20, 18, 19, sections.len()) && Sections::over(roads, sections).ascend()
}

// 5
#[tactic(auto, unfolding(model::specs::Rules::connection_parts_fit, model::specs::Rules::pair_parts_fit))]
pub fn connections_fit(map: &MapTables) -> bool
    requires { (length map.now.connections.now / 7 ≤ 16384) × (length map.now.pairs.now / 2 ≤ 16384) }
    ensures { result ≡ (connection_parts_fit map.now.connections.now map.now.junctions.now
        && pair_parts_fit map.now.pairs.now map.now.connections.now) }
{
    parts_fit(map.junctions, 5, 3, 4, map.connections.len() / 7)
        && parts_fit(map.connections, 7, 5, 6, map.pairs.len() / 2)
}
