//! What is often meant by words that are no job.

/// What is often meant by words that are refused, and how it is asked for; none where that isn't known.
pub fn hint(words: &[String]) -> Option<&'static str> {
    match words.get(1)?.as_str() {
        "replay" if words.len() > 3 => Some(
            "a script is read from standard input: vaultctl replay FILE < SCRIPT",
        ),
        "put"
        | "get"
        | "head"
        | "list"
        | "list-versions"
        | "delete"
        | "delete-version"
        | "hold"
        | "set-hold"
        | "retain"
        | "set-retention"
        | "set-rules"
        | "set-default" => Some(
            "that is a command of a script, a line of JSON: vaultctl replay FILE < SCRIPT; docs/formats/LINES.md has an example of each, and vaultdesk does most of them",
        ),
        _ => None,
    }
}
