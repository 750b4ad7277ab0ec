// What is proved of the two converters together. The function has no code: it promises its statement of specs/Theorems.
ghost use Rattle.conversion.specs.Theorems.{ThereAndBack};

/// A file that is moved and then moved back is the old file, byte for byte.
pub fn there_and_back()
    ensures { ThereAndBack }
{}
