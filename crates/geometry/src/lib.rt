// Kinds, heads, reaches and plunges: the forms that document 01 names, each with its whole meaning in its contract.
#![tactic(auto)]

ghost use Rattle.std.specs.Prelude.{◌≡◌, max, pos};
ghost use Rattle.geometry.specs.Plane.{cell, gap, dist};
ghost use Rattle.geometry.specs.Forms.{kind_byte, kind_of, reach_of, reach_of_clearance};
ghost use Rattle.geometry.specs.Plunges.{covers, inside, fits_plate};
ghost use Rattle.geometry.specs.Sizes.{size_of};

// The two kinds of ball: a diamond's cells share sides, a square's also corners.
#[derive(Clone, Copy)]
pub enum Kind {
    Diamond,
    Square,
}

// The size of a plate: small if both sides are at most 240, and then its numbers are bytes in a file; else two bytes each.
#[derive(Clone, Copy)]
pub enum Size {
    Small,
    Large,
}

// What a list says of its plate.
#[derive(Clone, Copy)]
pub struct Head {
    pub kind: Kind,
    pub width: u16,
    pub height: u16,
}

// The distance from a cell to the nearest cell outside its shape.
#[derive(Clone, Copy)]
pub struct Clearance(pub u16);

// The radius of a ball: of a clearance above 0, one less.
#[derive(Clone, Copy)]
pub struct Reach(pub u16);

// One stroke of the press: a ball of a reach about a centre, sunk to a depth.
#[derive(Clone, Copy)]
pub struct Plunge {
    pub column: u16,
    pub row: u16,
    pub reach: Reach,
    pub depth: u8,
}

// Both sides of a small plate are at most this.
pub const SMALL_SIDE: u16 = 240;

impl Head {
    // The size of the plate.
    #[tactic(auto, unfolding(crate::specs::Sizes::size_of))]
    pub fn size(self) -> Size
        ensures { result ≡ size_of self }
    {
        if self.width <= SMALL_SIDE && self.height <= SMALL_SIDE {
            Size::Small
        } else {
            Size::Large
        }
    }
}

// ---- kinds and distance

fn gap_of(a: u16, b: u16) -> u32
    ensures { result ≡ gap (pos a) (pos b) }
{
    a.abs_diff(b) as u32
}

impl Kind {
    // The kind of a byte: 4 or 8.
    pub fn of_byte(byte: u8) -> Option<Kind>
        ensures { result ≡ kind_of byte }
    {
        match byte {
            4 => Some(Kind::Diamond),
            8 => Some(Kind::Square),
            _ => None,
        }
    }

    // The byte of the kind.
    pub fn byte(self) -> u8
        ensures { result ≡ kind_byte self }
    {
        match self {
            Kind::Diamond => 4,
            Kind::Square => 8,
        }
    }

    // The distance of two cells.
    pub fn distance(self, column: u16, row: u16, column2: u16, row2: u16) -> u32
        ensures { result ≡ dist self (cell column row) (cell column2 row2) }
    {
        let across = gap_of(column, column2);
        let down = gap_of(row, row2);
        match self {
            Kind::Diamond => across + down,
            Kind::Square => across.max(down),
        }
    }
}

// ---- reaches

impl Reach {
    pub const MAX: Reach = Reach(119);

    // The reach that a number of a file stands for; above the largest it stands for none.
    pub fn read(number: u16) -> Option<Reach>
        ensures { result ≡ reach_of number }
    {
        if number <= Reach::MAX.0 {
            Some(Reach(number))
        } else {
            None
        }
    }

    // The reach of the largest ball about a cell with this clearance.
    pub fn of_clearance(clearance: Clearance) -> Option<Reach>
        ensures { result ≡ reach_of_clearance clearance }
    {
        Reach::read(clearance.0.checked_sub(1)?)
    }
}

// ---- plunges

impl Plunge {
    // Whether the ball holds a cell.
    pub fn covers(self, kind: Kind, column: u16, row: u16) -> bool
        ensures { result ≡ covers kind self (cell column row) }
    {
        kind.distance(self.column, self.row, column, row) <= (self.reach.0 as u32)
    }

    // Whether it lies inside another plunge: every cell of its ball in the other's, and no deeper.
    pub fn inside(self, kind: Kind, other: Plunge) -> bool
        ensures { result ≡ inside kind self other }
    {
        let apart = kind.distance(self.column, self.row, other.column, other.row);
        apart + (self.reach.0 as u32) <= (other.reach.0 as u32) && self.depth <= other.depth
    }

    // Whether its ball lies wholly on the plate.
    pub fn fits_plate(self, head: Head) -> bool
        ensures { result ≡ fits_plate head self }
    {
        let reach = self.reach.0;
        reach <= self.column
            && reach <= self.row
            && (self.column as u32) + (reach as u32) < (head.width as u32)
            && (self.row as u32) + (reach as u32) < (head.height as u32)
    }
}
