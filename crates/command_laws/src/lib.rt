//! What the plans of commands say in the words of their subject: which status comes when, with which text, and which
//! file is asked for when. There is no code here: each law is the contract of an empty function.
#![tactic(auto)]

ghost use Rattle.command_laws.specs.Laws.{WhatIsReachedIsRight, PlansEndWithText, NoCommandIsUsage, UsageIsNoCommand, OkIsAccepted, RefusedIsRefused, BadProgramIsBad, BadScriptIsBad, AwaitedFilesComeInOrder};

/// Where the shelf tells its files, a plan leads to the right answer alone; and each plan ends with a status that has a
/// text.
pub fn plans_lead_to_right_answers()
    ensures right { WhatIsReachedIsRight }
    ensures said { PlansEndWithText }
{}

/// The status of words that mean no command comes exactly for these, and then no file is asked for.
pub fn no_command_is_usage()
    ensures usage { NoCommandIsUsage }
    ensures alone { UsageIsNoCommand }
{}

/// A script on a program: each status has its cause in the two files, and the line tells it.
pub fn scripts_on_programs_have_causes()
    ensures ok { OkIsAccepted }
    ensures refused { RefusedIsRefused }
    ensures bad_program { BadProgramIsBad }
    ensures bad_script { BadScriptIsBad }
    ensures order { AwaitedFilesComeInOrder }
{}
