// Theorems about sessions, and samples.
ghost use Rattle.sessions.specs.Promise.{LinesPromised};
ghost use Rattle.sessions.specs.Samples.{Samples, Lent, EnoughCells, NoPretending};

/// Whatever lines are sent to a new session, good, refused or damaged ones: it is on the sheet that the last accepted
/// opening opened, that sheet stands for the equations in force, and every line was rightly answered.
pub fn lines_promised()
    ensures { LinesPromised }
{}

/// What the definitions come to on sample lines, with every answer that a line can have; that too little lent memory is
/// refused; that a session has the cells of the largest sheet, so that no line is answered 13; and that a posting or a
/// clearing that only pretends, an opening of other unknowns and a plan without its move break what is promised of a
/// line.
#[tactic(auto, unfolding(crate::specs::Session::reply, crate::specs::Session::answer_text))]
pub fn samples_stand()
    ensures samples { Samples }
    ensures lent { Lent }
    ensures enough_cells { EnoughCells }
    ensures no_pretending { NoPretending }
{}
