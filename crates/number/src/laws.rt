// The laws of the definitions. A contract names each, so that the check asks for its proof; the code has nothing to do.
ghost use Rattle.number.specs.Laws.{AsPrinted, DecimalForm, DecimalsLawful, DecimalsReadBack, HexForm, HexesLawful, HexesReadBack, Limits, MechanismForm, MechanismsLawful, MechanismsReadBack, OnlyHexText, ReadsFit, SmallForm, SmallsLawful, SmallsReadBack, TidsReadBack};

// What is written is read back.
pub fn written_reads_back()
    ensures decimals { DecimalsReadBack }
    ensures smalls { SmallsReadBack }
    ensures mechanisms { MechanismsReadBack }
    ensures hexes { HexesReadBack }
    ensures tids { TidsReadBack }
{}

// How long a written text is, so that callers know their room and need no test.
pub fn written_forms()
    ensures decimals { DecimalForm }
    ensures smalls { SmallForm }
    ensures mechanisms { MechanismForm }
    ensures hexes { HexForm }
{}

// Decimal text is what std prints.
pub fn decimals_are_printed()
    ensures { AsPrinted }
{}

// A written text is lawful, so that a carrier that has room takes it.
pub fn written_is_lawful()
    ensures decimals { DecimalsLawful }
    ensures smalls { SmallsLawful }
    ensures mechanisms { MechanismsLawful }
    ensures hexes { HexesLawful }
{}

// No other text of that width reads as the number.
pub fn only_hex_text()
    ensures { OnlyHexText }
{}

// What is read is a number that its type holds.
pub fn read_fits()
    ensures { ReadsFit }
{}

// The definitions at their limits.
pub fn limits()
    ensures { Limits }
{}
