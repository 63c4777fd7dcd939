//! Laws of lines and of whole texts.
ghost use Rattle.armv6m_asm.specs.Alike.{OneStatementForEachLine};
ghost use Rattle.armv6m_asm.specs.Outcome.{OneRefusal, RefusedOrAssembled};

/// A line has one statement at most.
pub fn one_statement_for_each_line()
    ensures { OneStatementForEachLine }
{}

/// A text that is refused has no code, unless it is refused out of memory.
pub fn refused_or_assembled()
    ensures { RefusedOrAssembled }
{}

/// A text has at most one refusal other than out of memory.
pub fn one_refusal()
    ensures { OneRefusal }
{}
