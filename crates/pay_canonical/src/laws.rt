//! Laws of the canonical text. Each stands on a function with an empty body; the function's clause is the law.

ghost use Rattle.pay_canonical.specs.CanonicalLaw.{CanonicalTextSpells, CanonicalTextReadsBack};

/// Where a text spells tokens that pass no limit and spell a script, the script's canonical text spells such tokens too.
pub fn canonical_text_spells()
    ensures { CanonicalTextSpells }
{}

/// Such a script, printed, cut into tokens and read from them, is the same script.
pub fn canonical_text_reads_back()
    ensures { CanonicalTextReadsBack }
{}
