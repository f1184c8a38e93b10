// Prints for each file of data/ its name and what the trace in it prints. The file stdout was not made by this program: tests/trace_cases.py made
// it, and the files of data/, with every output by hand and by a player over avian's Rust.
#![tactic(auto)]

use std::fs::File;
use std::io;
use std::rt::Files;
use trace_output::print_read;

const NAMES: [&str; 73] = [
    "example",
    "empty",
    "out_of_range",
    "same_collider",
    "pair_exists",
    "graph_full",
    "too_many_manifolds",
    "too_many_points",
    "too_many_passed_over",
    "out_of_range_before_too_many",
    "out_of_range_at_go",
    "out_of_range_gone",
    "out_of_range_no_go",
    "settings_missing",
    "replaced",
    "replaced_body",
    "replaced_settings",
    "replaced_out_of_range",
    "passed_over_out_of_range",
    "hooks",
    "manifold_orders",
    "point_passed_over",
    "addition_below_manifold",
    "point_below_addition",
    "point_below_go",
    "records_gone",
    "events_before_changes",
    "sensor",
    "count_changes",
    "bodies_absent",
    "recycled",
    "boxes_apart",
    "zeros_in_front",
    "largest_number",
    "number_too_large",
    "zeros_before_too_large",
    "lower_case",
    "nan_patterns",
    "seven_digits",
    "nine_digits",
    "minus",
    "plus",
    "dash_for_distance",
    "dash_for_mark",
    "dash_for_feature",
    "dash_for_rule",
    "two_dashes_for_friction",
    "letter_unknown",
    "letter_small",
    "letter_twice",
    "empty_line",
    "doubled_tab",
    "trailing_tab",
    "space",
    "carriage_return",
    "last_feed_missing",
    "field_missing",
    "settings_of_9_fields",
    "settings_of_12_fields",
    "settings_tab_at_end",
    "unreadable_passed_over",
    "matching",
    "matching_out_of_range",
    "matching_replaced_out_of_range",
    "matching_too_large",
    "matching_minus",
    "matching_two_dashes",
    "matching_tab_at_end",
    "matching_dash_tab_at_end",
    "matching_feed_missing",
    "matching_dash_feed_missing",
    "longest",
    "too_long",
];

// A file that cannot be opened is named on standard error, and passed over.
fn print_case<R: Files + AllocGlobal + Print + Eprint>(rt: &R, name: &str) -> io::Result<()> {
    let file = match File::open(rt, name) {
        Ok(file) => file,
        Err(e) => return eprintln!(rt; "{name}: {e}"),
    };
    println!(rt; "{name}")?;
    print_read(rt.alloc(), file, &mut io::writer(rt))
}

fn main(rt: HostRuntime) -> io::Result<()> {
    for name in NAMES {
        print_case(&rt, name)?;
    }
    Ok(())
}
