//! Expressions that are built by the normalising constructors.
ghost use Rattle.traces.specs.Theorems.{NormalWords, NormalBuilt, NormalPlain, NormalHasWord, EqualDecides};

/// The normalising constructors change no word.
pub fn normal_words_holds()
    ensures { NormalWords }
{}

/// What the normalising constructors build is normalised.
pub fn normal_built_holds()
    ensures { NormalBuilt }
{}

/// On normalised expressions the constructors have simpler readings.
pub fn normal_plain_holds()
    ensures { NormalPlain }
{}

/// A normalised expression is Zero, or holds no Zero and has a word.
pub fn normal_has_word_holds()
    ensures { NormalHasWord }
{}

/// The test of two expressions tells whether they are the same.
pub fn equal_decides_holds()
    ensures { EqualDecides }
{}
