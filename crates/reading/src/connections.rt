// Connections: those that are kept with their pairs, and the warnings.
ghost use Rattle.std.specs.Prelude.{◌≡◌, cond, [], ◌∷◌, ◌+◌, ◌/◌, ◌≤◌, ◌<◌, length};
ghost use Rattle.model.specs.Lists.{gather, pick};
ghost use Rattle.model.specs.Rules.{is_direct};
ghost use Rattle.model.specs.Tables.{name_in};
ghost use Rattle.model.specs.Reading.{kind_read, kind_at, passed_over, part_rows, kept_connections};
ghost use Rattle.model.specs.Reading.{connection_loose, connection_warnings};
ghost use Rattle.words.specs.Fields.{junction_kind};
ghost use Rattle.reading.specs.Laid.{ConnectionsRead, Warned};
ghost use Rattle.reading.specs.Outs.{LowLaid, connections_laid, laid};
ghost use Rattle.reading.specs.Read.{attribute_read, both_of, contact_read, names_read, tables_read};

use crate::attributes::{ContactPoint, attribute, contact_of, reads, same_names};
use crate::laid::Laid;
use crate::links::read_links;
use crate::raw::Admitted;
use crate::warning::Warning;
use words::kinds::JunctionKind;
use words::name::Name;
use words::rows;

// A junction's kind by its type. (By `reads`, as a contactPoint is read.)
pub fn kind_read(text: &[u8], attribute: Option<Name>) -> JunctionKind
    ensures { junction_kind result ≡ kind_read text.now (attribute_read attribute) }
{
    if reads(text, b"direct", attribute) {
        return JunctionKind::Direct;
    }
    if reads(text, b"virtual", attribute) {
        return JunctionKind::Virtual;
    }
    JunctionKind::Common
}

// The incoming and the connecting road of a raw connection, in a junction of this kind; none where it has not both.
fn roads(row: &[u32; 14], kind: JunctionKind) -> Option<(Name, Name)>
    ensures { names_read result ≡ both_of (name_in row.now 4)
        (pick (is_direct (junction_kind kind)) (name_in row.now 6) (name_in row.now 8)) }
{
    let incoming = attribute(row, 4)?;
    let connecting = match kind {
        JunctionKind::Direct => attribute(row, 8),
        _ => attribute(row, 6),
    };
    Some((incoming, connecting?))
}

// Warning 4 for connection c of junction j, where its contactPoint is spelled loosely.
fn warn_loose(point: ContactPoint, j: u32, c: u32, warnings: &mut Laid<4>)
    requires { warnings.old.rows ≤ 32768 }
    ensures warned { Warned (cond (contact_read point).loose (connection_loose j c ∷ []) []) (laid warnings.old)
        (laid warnings.new) }
    ensures few { warnings.new.rows ≤ warnings.old.rows + 1 }
{
    if point.is_loose() {
        warnings.put(&Warning::ConnectionLoose {
            junction: j,
            connection: c,
        }
        .row());
    }
}

// A raw junction: the tables, its row and its kind.
#[derive(Clone, Copy)]
pub struct RawJunction<'a> {
    pub tables: Admitted<'a>,
    pub row: usize,
    pub kind: JunctionKind,
    ghost there: { row < length tables.raw.junctions.now / 8 },
    ghost kind_is: { junction_kind kind ≡ kind_at (tables_read tables.raw) row },
}

impl<'a> RawJunction<'a> {
    // Whether connection c is passed over.
    #[tactic(auto, unfolding(model::specs::Reading::passed_over))]
    fn passes_over(&self, c: usize) -> bool
        requires { c < length self.now.tables.raw.connections.now / 14 }
        ensures { result ≡ passed_over (tables_read self.now.tables.raw) self.now.row c }
    {
        let text = self.tables.raw.text;
        let row = self.tables.connection(c);
        self.kind == JunctionKind::Virtual
            && (reads(text, b"virtual", attribute(row, 2))
                || same_names(
                    text,
                    attribute(row, 4),
                    attribute(self.tables.junction(self.row), 4),
                ))
    }

    // Reads connection c.
    fn read_connection(
        &self,
        c: usize,
        connections: &mut Laid<7>,
        pairs: &mut Laid<2>,
        warnings: &mut Laid<4>,
    )
        requires { (c < length self.now.tables.raw.connections.now / 14)
            × LowLaid self.now.tables.raw.connections.now c connections.old pairs.old warnings.old }
        ensures read { ConnectionsRead (kept_connections (tables_read self.now.tables.raw) self.now.row c)
            (connection_warnings (tables_read self.now.tables.raw) self.now.row c)
            (connections_laid connections.old pairs.old warnings.old)
            (connections_laid connections.new pairs.new warnings.new) }
        ensures low { LowLaid self.now.tables.raw.connections.now (c + 1) connections.new pairs.new
            warnings.new }
    {
        if self.passes_over(c) {
            return;
        }
        let row = self.tables.connection(c);
        let Some((incoming, connecting)) = roads(row, self.kind) else {
            warnings.put(&Warning::ConnectionDropped {
                junction: self.row as u32,
                connection: c as u32,
            }
            .row());
            return;
        };
        let point = contact_of(self.tables.raw.text, attribute(row, 10));
        warn_loose(point, self.row as u32, c as u32, warnings);
        let first = rows::word(row, 12);
        let count = rows::word(row, 13);
        let start = pairs.rows;
        read_links(
            &self.tables,
            self.row as u32,
            c as u32,
            first,
            count,
            pairs,
            warnings,
        );
        let size = pairs.rows - start;
        connections.put(&[
            incoming.start,
            incoming.size,
            connecting.start,
            connecting.size,
            u32::from(point.is_end()),
            start as u32,
            size as u32,
        ]);
    }

    // Reads `count` connections from row `first` on.
    pub fn read_connections(
        &self,
        first: usize,
        count: usize,
        connections: &mut Laid<7>,
        pairs: &mut Laid<2>,
        warnings: &mut Laid<4>,
    )
        requires { (first + count ≤ length self.now.tables.raw.connections.now / 14)
            × LowLaid self.now.tables.raw.connections.now first connections.old pairs.old warnings.old }
        ensures read { ConnectionsRead
            (gather (kept_connections (tables_read self.now.tables.raw) self.now.row) (part_rows first count))
            (gather (connection_warnings (tables_read self.now.tables.raw) self.now.row) (part_rows first count))
            (connections_laid connections.old pairs.old warnings.old)
            (connections_laid connections.new pairs.new warnings.new) }
        ensures low { LowLaid self.now.tables.raw.connections.now (first + count) connections.new pairs.new
            warnings.new }
    {
        for k in 0..count {
            self.read_connection(first + k, connections, pairs, warnings);
        }
    }
}
