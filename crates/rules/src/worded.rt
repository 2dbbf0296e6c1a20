// 2: a word or name breaks the table rules. (The rule is about the words: here they are read as they stand.)
ghost use Rattle.std.specs.Prelude.{◌≡◌, ◌+◌, ◌≤◌, ◌<◌, length};
ghost use Rattle.model.specs.Lists.{every};
ghost use Rattle.model.specs.Rows.{table};
ghost use Rattle.model.specs.Rules.{road_worded, junction_worded, connection_worded, lane_worded, map_worded};
ghost use Rattle.words.specs.Map.{map_read};
ghost use Rattle.rules.specs.ByRow.{target_fits, link_fits};

use words::map::MapTables;
use words::name::Name;

// Whether the target from word `at` on keeps the rules.
#[tactic(auto, unfolding(model::specs::Rules::target_worded))]
fn target_fits(text: &[u8], row: &[u32], at: usize) -> bool
    requires { at + 6 < length row.now }
    ensures { result ≡ target_fits text.now row.now at }
{
    if row[at] == 1 {
        return row[at + 1] <= 1
            && Name::at(row, at + 2).is_placed(text)
            && row[at + 4] <= 1
            && row[at + 5] <= 1
            && row[at + 6] <= 1;
    }
    row[at..at + 7] == [0; 7]
}

// Whether the link at words `at` and `at + 1` does.
#[tactic(auto, unfolding(model::specs::Rules::link_worded))]
fn link_fits(row: &[u32], at: usize) -> bool
    requires { at + 1 < length row.now }
    ensures { result ≡ link_fits row.now at }
{
    row[at] == 1 || row[at] == 0 && row[at + 1] == 0
}

#[tactic(auto, unfolding(model::specs::Rules::road_worded))]
fn road_worded(text: &[u8], row: &[u32]) -> bool
    requires { 20 ≤ length row.now }
    ensures { result ≡ road_worded text.now row.now }
{
    let junction = Name::at(row, 2);
    Name::at(row, 0).is_placed(text)
        && (junction.is_absent() || junction.is_placed(text))
        && target_fits(text, row, 4)
        && target_fits(text, row, 11)
}

#[tactic(auto, unfolding(model::specs::Rules::junction_worded))]
fn junction_worded(text: &[u8], row: &[u32]) -> bool
    requires { 5 ≤ length row.now }
    ensures { result ≡ junction_worded text.now row.now }
{
    Name::at(row, 0).is_placed(text) && row[2] <= 2
}

#[tactic(auto, unfolding(model::specs::Rules::connection_worded))]
fn connection_worded(text: &[u8], row: &[u32]) -> bool
    requires { 7 ≤ length row.now }
    ensures { result ≡ connection_worded text.now row.now }
{
    Name::at(row, 0).is_placed(text) && Name::at(row, 2).is_placed(text) && row[4] <= 1
}

#[tactic(auto, unfolding(model::specs::Rules::lane_worded))]
fn lane_worded(text: &[u8], row: &[u32]) -> bool
    requires { 10 ≤ length row.now }
    ensures { result ≡ lane_worded text.now row.now }
{
    Name::at(row, 1).is_placed(text) && row[5] <= 2 && link_fits(row, 6) && link_fits(row, 8)
}

// 2, of each of the map's tables
pub fn roads_worded(text: &[u8], roads: &[u32]) -> bool
    ensures { result ≡ every (road_worded text.now) (table 20 roads.now) }
{
    roads.chunks_exact(20).all(|row| road_worded(text, row))
}

pub fn junctions_worded(text: &[u8], junctions: &[u32]) -> bool
    ensures { result ≡ every (junction_worded text.now) (table 5 junctions.now) }
{
    junctions
        .chunks_exact(5)
        .all(|row| junction_worded(text, row))
}

pub fn connections_worded(text: &[u8], connections: &[u32]) -> bool
    ensures { result ≡ every (connection_worded text.now) (table 7 connections.now) }
{
    connections
        .chunks_exact(7)
        .all(|row| connection_worded(text, row))
}

// 2, of the map
#[tactic(auto, unfolding(model::specs::Rules::map_worded))]
pub fn map_worded(map: &MapTables) -> bool
    ensures { result ≡ map_worded (map_read map.now) }
{
    roads_worded(map.text, map.roads)
        && junctions_worded(map.text, map.junctions)
        && connections_worded(map.text, map.connections)
}

// 2, of the lanes
pub fn lanes_worded(text: &[u8], lanes: &[u32]) -> bool
    ensures { result ≡ every (lane_worded text.now) (table 10 lanes.now) }
{
    lanes.chunks_exact(10).all(|row| lane_worded(text, row))
}
