//! A law over the command lines of all programs. The function does nothing: its contract is the law.
ghost use Rattle.clap_lines.specs.Shown.{IsToldAlone};

/// If the words of a command line ask for help or for the version, clap finds no other fault in them.
pub fn help_is_told_alone()
    ensures { IsToldAlone }
{}
