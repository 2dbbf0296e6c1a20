// The raw tables of junctions, and rows of them.
ghost use Rattle.std.specs.Prelude.{◌≡◌, ◌/◌, ◌<◌, length};
ghost use Rattle.model.specs.Reading.{row_at};
ghost use Rattle.reading.specs.Laid.{Ready};

use words::rows;

// As they are lent.
#[derive(Clone, Copy)]
pub struct RawJunctions<'a> {
    pub text: &'a [u8],
    pub junctions: &'a [u32],
    pub connections: &'a [u32],
    pub lane_links: &'a [u32],
}

// Those that keep 1, 2 and 5.
#[derive(Clone, Copy)]
pub struct Admitted<'a> {
    pub raw: RawJunctions<'a>,
    ghost ready: { Ready raw.junctions.now raw.connections.now raw.lane_links.now },
}

impl<'a> Admitted<'a> {
    // Raw junction j.
    pub fn junction(&self, j: usize) -> &'a [u32; 8]
        requires { j < length self.now.raw.junctions.now / 8 }
        ensures { result.now ≡ row_at 8 self.now.raw.junctions.now j }
    {
        rows::row::<8>(self.raw.junctions, j)
    }

    // Raw connection c.
    pub fn connection(&self, c: usize) -> &'a [u32; 14]
        requires { c < length self.now.raw.connections.now / 14 }
        ensures { result.now ≡ row_at 14 self.now.raw.connections.now c }
    {
        rows::row::<14>(self.raw.connections, c)
    }

    // Raw lane link l.
    pub fn lane_link(&self, l: usize) -> &'a [u32; 4]
        requires { l < length self.now.raw.lane_links.now / 4 }
        ensures { result.now ≡ row_at 4 self.now.raw.lane_links.now l }
    {
        rows::row::<4>(self.raw.lane_links, l)
    }
}
