//! Laws of scripts, which no call has to be trusted for.

ghost use Rattle.sign_tool.specs.Script.{CarriesOn, RepliesAsRun};
ghost use Rattle.sign_tool.specs.ServedLaws.{CommandsRun, OneReplyEach, ServesAsRuns, ServesOn};

/// The replies to lines that spell commands are the texts of the replies of one run of the controller over these commands.
/// What comes after some lines of a script finds the state that this run makes of the commands that they spell.
pub fn scripts_run_the_controller()
    ensures commands { RepliesAsRun }
    ensures state { CarriesOn }
{}

/// Each line of a served sign has one reply. What comes after some lines finds the state that is made by the commands that they spell and
/// by the states that they restore: a bad line, and one that is too long, change nothing. Commands with no restored state among them make
/// the state of one run of the controller. The replies to the lines of a script are those of the script, but for its empty lines and
/// comments, which a served sign answers too.
pub fn served_signs_run_the_controller()
    ensures one { OneReplyEach }
    ensures state { ServesOn }
    ensures commands { CommandsRun }
    ensures scripts { ServesAsRuns }
{}
