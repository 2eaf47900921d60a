// How large a sheet is, where its parts stand in its cells, and what it is besides them.
ghost use Rattle.std.specs.Prelude.{◌≡◌, ◌+◌, ◌*◌, ◌<◌, ◌≤◌};
ghost use Rattle.sheets.specs.Cells.{main_cells, needed};
ghost use Rattle.sheets.specs.declared.shape.TheConstants.{MOST_UNKNOWNS};

// As many unknowns as a sheet may have.
pub const MOST_UNKNOWNS: usize = 24;

#[derive(Clone, Copy)]
pub struct Shape {
    // 0 where the sheet could not be opened: opening is public and cannot fail.
    pub(crate) unknowns: usize,
    pub(crate) moves: usize,
    ghost small: { unknowns ≤ MOST_UNKNOWNS },
    ghost few: { moves ≤ unknowns },
}

impl Shape {
    // Where the spare cells begin, and in them column B.
    pub(crate) fn spare(self) -> usize
        ensures value { result ≡ main_cells self.unknowns }
        ensures within { result + (self.unknowns + 1) ≤ needed self.unknowns }
    {
        self.unknowns * (self.unknowns + 1)
    }

    // Where the column of move j has its top, behind column B.
    pub(crate) fn column(self, j: usize) -> usize
        requires { j < self.moves }
        ensures value { let height = self.unknowns + 1 in
            result ≡ main_cells self.unknowns + height + j * height }
        ensures within { result + (self.unknowns + 1) ≤ needed self.unknowns }
    {
        self.spare() + (self.unknowns + 1) + j * (self.unknowns + 1)
    }

    // Where move j begins, behind the fixed plan.
    pub(crate) fn row(self, j: usize) -> usize
        requires { j < self.moves }
        ensures value { result ≡ self.unknowns + j * self.unknowns }
        ensures within { result + self.unknowns ≤ main_cells self.unknowns }
    {
        self.unknowns + j * self.unknowns
    }
}

// What a sheet is besides its cells: how large it is, and the list of unknowns that it is about.
#[derive(Clone, Copy)]
pub struct Outline {
    pub(crate) shape: Shape,
    // Names the list of unknowns that the sheet's equations are about.
    pub(crate) list: u16,
}

impl Outline {
    // How many unknowns the sheet has; none where it could not be opened.
    pub fn unknowns(self) -> usize
        ensures { result ≡ self.shape.unknowns }
    {
        self.shape.unknowns
    }

    pub fn moves(self) -> usize
        ensures { result ≡ self.shape.moves }
    {
        self.shape.moves
    }

    // The list number.
    pub fn list(self) -> u16
        ensures { result ≡ self.list }
    {
        self.list
    }
}
