// 1: an input's length is no whole number of rows or above its limit.
ghost use Rattle.std.specs.Prelude.{◌≡◌, ◌≤◌, ◌<◌};
ghost use Rattle.model.specs.Rules.{sized, map_sized};
ghost use Rattle.words.specs.Map.{map_read};

use words::map::MapTables;

// n words, w a row, at most `most` rows.
#[tactic(auto, unfolding(model::specs::Rules::sized))]
pub fn fits(n: usize, w: usize, most: usize) -> bool
    requires { (0 < w) × (w ≤ 20) × (most ≤ 131072) }
    ensures { result ≡ sized w most n }
{
    n % w == 0 && n <= most * w
}

// The text and the tables of the map; connections and pairs have at most `most` rows.
#[tactic(auto, unfolding(model::specs::Rules::map_sized))]
pub fn map_sized(map: &MapTables, most: usize) -> bool
    requires { most ≤ 16384 }
    ensures { result ≡ map_sized most (map_read map.now) }
{
    map.text.len() <= 1048576
        && fits(map.roads.len(), 20, 16384)
        && fits(map.sections.len(), 1, 16384)
        && fits(map.junctions.len(), 5, 16384)
        && fits(map.connections.len(), 7, most)
        && fits(map.pairs.len(), 2, most)
}
