// Lane links: pairs, and warning 2 for each that has not two numbers.
ghost use Rattle.std.specs.Prelude.{◌≡◌, ◌+◌, ◌/◌, ◌≤◌, ◌<◌, length};
ghost use Rattle.model.specs.Lists.{gather};
ghost use Rattle.model.specs.Reading.{number_of, pair_of, part_rows};
ghost use Rattle.model.specs.Tables.{name_in};
ghost use Rattle.reading.specs.Laid.{LinksRead, pairs_at, drops_at};
ghost use Rattle.reading.specs.Outs.{links_laid};
ghost use Rattle.reading.specs.Read.{pair_read};

use crate::attributes::{attribute, number_of};
use crate::laid::Laid;
use crate::raw::Admitted;
use crate::warning::Warning;

// The two numbers of a raw lane link; none where it has not both.
fn read_pair(text: &[u8], row: &[u32; 4]) -> Option<(u32, u32)>
    ensures { pair_read result
        ≡ pair_of (number_of text.now (name_in row.now 0)) (number_of text.now (name_in row.now 2)) }
{
    let from = number_of(text, attribute(row, 0))?;
    let to = number_of(text, attribute(row, 2))?;
    Some((from, to))
}

// Reads lane link l of connection c of junction j, two rows that its warning alone needs.
fn read_link(
    tables: &Admitted,
    j: u32,
    c: u32,
    l: usize,
    pairs: &mut Laid<2>,
    warnings: &mut Laid<4>,
)
    requires { (l < length tables.now.raw.lane_links.now / 4) × (pairs.old.rows ≤ 16384)
        × (warnings.old.rows ≤ 32768) }
    ensures read { LinksRead (pairs_at tables.now.raw.text.now tables.now.raw.lane_links.now l)
        (drops_at tables.now.raw.text.now tables.now.raw.lane_links.now j c l) (links_laid pairs.old warnings.old)
        (links_laid pairs.new warnings.new) }
    ensures few { (pairs.new.rows ≤ pairs.old.rows + 1) × (warnings.new.rows ≤ warnings.old.rows + 1) }
{
    match read_pair(tables.raw.text, tables.lane_link(l)) {
        Some((from, to)) => pairs.put(&[from, to]),
        None => warnings.put(&Warning::LaneLinkDropped {
            junction: j,
            connection: c,
            lane_link: l as u32,
        }
        .row()),
    }
}

// Reads `count` lane links from row `first` on.
pub fn read_links(
    tables: &Admitted,
    j: u32,
    c: u32,
    first: usize,
    count: usize,
    pairs: &mut Laid<2>,
    warnings: &mut Laid<4>,
)
    requires { (first + count ≤ length tables.now.raw.lane_links.now / 4) × (pairs.old.rows + count ≤ 16384)
        × (warnings.old.rows + count ≤ 32768) }
    ensures read { LinksRead
        (gather (pairs_at tables.now.raw.text.now tables.now.raw.lane_links.now) (part_rows first count))
        (gather (drops_at tables.now.raw.text.now tables.now.raw.lane_links.now j c) (part_rows first count))
        (links_laid pairs.old warnings.old) (links_laid pairs.new warnings.new) }
    ensures few { (pairs.new.rows ≤ pairs.old.rows + count)
        × (warnings.new.rows ≤ warnings.old.rows + count) }
{
    for k in 0..count {
        read_link(tables, j, c, first + k, pairs, warnings);
    }
}
