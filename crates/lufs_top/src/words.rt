//! Which command the words of a run are.
ghost use Rattle.std.specs.Prelude.{◌≡◌, ◌↔◌, ◌++◌, ◌&&◌, option_map, IsTrue};
ghost use Rattle.lufs_top.specs.Words.{all_differ, differ, command_meant, command_of, new_volume_of, numbers_of, on_volume, session_names, session_of, standard_output};
ghost use Rattle.drive_command.specs.Ending.{history_name, out_name};

use crate::numbers::{VolumeNumbers, number_of};

/// What the words of a command ask for.
#[derive(Clone, Copy)]
pub(crate) enum Command<'a> {
    /// Lists the transactions in the log of a volume.
    Scan {
        volume: &'a str,
    },
    /// Checks a volume.
    Check {
        volume: &'a str,
    },
    /// Makes an empty volume of these numbers.
    Mkfs {
        volume: &'a str,
        numbers: VolumeNumbers,
    },
    /// Serves a script on a volume, as far as the turns of a schedule go.
    Drive {
        volume: &'a str,
        schedule: &'a str,
        script: &'a str,
    },
}

#[tactic(auto, unfolding(crate::specs::Words::numbers_of))]
fn numbers_of(groups: &str, bpg: &str, ipg: &str, log: &str) -> Option<VolumeNumbers>
    ensures { result ≡ numbers_of groups.now bpg.now ipg.now log.now }
{
    Some(VolumeNumbers {
        groups: number_of(groups)?,
        bpg: number_of(bpg)?,
        ipg: number_of(ipg)?,
        log: number_of(log)?,
    })
}

// Whether a name is this one with a suffix.
fn is_suffixed(name: &str, stem: &str, suffix: &str) -> bool
    ensures { IsTrue result ↔ (name.now ≡ stem.now ++ suffix.now) }
{
    match name.as_bytes().strip_prefix(stem.as_bytes()) {
        Some(rest) => rest == suffix.as_bytes(),
        None => false,
    }
}

// Whether none of what a session is given is standard output.
fn are_no_output(volume: &str, schedule: &str, script: &str) -> bool
    ensures { result ≡ (differ standard_output volume.now && (differ standard_output schedule.now && differ standard_output script.now)) }
{
    volume != "-" && schedule != "-" && script != "-"
}

// Whether three names differ.
fn are_three(volume: &str, schedule: &str, script: &str) -> bool
    ensures { result ≡ (differ volume.now schedule.now && (differ volume.now script.now && differ schedule.now script.now)) }
{
    volume != schedule && volume != script && schedule != script
}

// Whether a session reads neither its own history nor its own replies.
fn are_not_written(volume: &str, schedule: &str, script: &str) -> bool
    ensures { result ≡ (differ schedule.now (history_name volume.now) && differ script.now (history_name volume.now)
        && (differ volume.now (out_name script.now) && differ schedule.now (out_name script.now))) }
{
    let history = is_suffixed(schedule, volume, ".history")
        || is_suffixed(script, volume, ".history");
    let replies = is_suffixed(volume, script, ".out") || is_suffixed(schedule, script, ".out");
    !history && !replies
}

// Whether no two names that a session uses are the same. A name is never the same with a suffix, and none of a history
// is one of replies.
fn are_apart(volume: &str, schedule: &str, script: &str) -> bool
    ensures { result ≡ all_differ (session_names volume.now schedule.now script.now) }
{
    are_no_output(volume, schedule, script)
        && are_three(volume, schedule, script)
        && are_not_written(volume, schedule, script)
}

// The command of one name.
fn on_volume<'a>(command: &str, volume: &'a str) -> Option<Command<'a>>
    ensures { option_map command_meant result ≡ on_volume command.now volume.now }
{
    match command {
        "scan" if volume != "-" => Some(Command::Scan { volume }),
        "check" if volume != "-" => Some(Command::Check { volume }),
        _ => None,
    }
}

// The command of three names.
fn session<'a>(
    command: &str,
    volume: &'a str,
    schedule: &'a str,
    script: &'a str,
) -> Option<Command<'a>>
    ensures { option_map command_meant result ≡ session_of command.now volume.now schedule.now script.now }
{
    if command == "drive" && are_apart(volume, schedule, script) {
        Some(Command::Drive {
            volume,
            schedule,
            script,
        })
    } else {
        None
    }
}

// The command of a name and the numbers of a new volume.
fn new_volume<'a>(
    command: &str,
    volume: &'a str,
    numbers: Option<VolumeNumbers>,
) -> Option<Command<'a>>
    ensures { option_map command_meant result ≡ new_volume_of command.now volume.now numbers }
{
    match numbers {
        Some(numbers) if command == "mkfs" && volume != "-" => {
            Some(Command::Mkfs { volume, numbers })
        }
        _ => None,
    }
}

/// The command of these words, if they are one.
#[tactic(auto, unfolding(crate::specs::Words::command_of))]
pub(crate) fn command_of(words: &[String]) -> Option<Command<'_>>
    ensures { option_map command_meant result ≡ command_of words.now }
{
    match words {
        [command, volume] => on_volume(command.as_str(), volume.as_str()),
        [command, volume, schedule, script] => session(
            command.as_str(),
            volume.as_str(),
            schedule.as_str(),
            script.as_str(),
        ),
        [command, volume, groups, bpg, ipg, log] => new_volume(
            command.as_str(),
            volume.as_str(),
            numbers_of(groups.as_str(), bpg.as_str(), ipg.as_str(), log.as_str()),
        ),
        _ => None,
    }
}
