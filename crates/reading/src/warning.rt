// Warnings, and the rows that they are written as.
ghost use Rattle.std.specs.Prelude.{◌≡◌};
ghost use Rattle.model.specs.Reading.{read_warning_row};
ghost use Rattle.reading.specs.Read.{warning_read};

// No junction row: in a warning of a target.
const NO_ROW: u32 = 4294967295;

// What the reading warns of, by raw rows; of a target its road, and which end it is at: 0, or 1 for a successor.
#[derive(Clone, Copy, PartialEq, Eq, Debug)]
pub enum Warning {
    ConnectionDropped {
        junction: u32,
        connection: u32,
    },
    LaneLinkDropped {
        junction: u32,
        connection: u32,
        lane_link: u32,
    },
    ConnectionLoose {
        junction: u32,
        connection: u32,
    },
    TargetLoose {
        road: u32,
        end: u32,
    },
}

impl Warning {
    // Its row.
    pub fn row(self) -> [u32; 4]
        ensures { result ≡ read_warning_row (warning_read self) }
    {
        match self {
            Warning::ConnectionDropped {
                junction,
                connection,
            } => [1, junction, connection, 0],
            Warning::LaneLinkDropped {
                junction,
                connection,
                lane_link,
            } => [2, junction, connection, lane_link],
            Warning::ConnectionLoose {
                junction,
                connection,
            } => [4, junction, connection, 0],
            Warning::TargetLoose { road, end } => [4, NO_ROW, road, end],
        }
    }
}
