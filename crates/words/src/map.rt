// The tables of a map, as they are lent.

// Document 01's tables but lanes and edges: any content.
#[derive(Clone, Copy)]
pub struct MapTables<'a> {
    pub text: &'a [u8],
    pub roads: &'a [u32],
    pub sections: &'a [u32],
    pub junctions: &'a [u32],
    pub connections: &'a [u32],
    pub pairs: &'a [u32],
}
