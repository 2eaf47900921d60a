// Theorems about the answering of an input.
ghost use Rattle.stream.specs.Promised.{InputsPromised};

/// What is written for an input are the replies of a new session to its lines, and they keep the promise over lines.
pub fn inputs_promised()
    ensures { InputsPromised }
{}
