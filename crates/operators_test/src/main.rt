// The whole of `operators`, printed: a line for each of the 256 bytes, with its level, its level in an expression, and the
// operators that the five mapping functions give, by their places in the lists of operator.rs and 0 for none.
// `stdout` is what tests/operators.py prints, which was written from the rules and operator.rs and not from this program.
#![tactic(auto)]

use std::io;

fn print_line(rt: &impl Print, k: u8) -> io::Result<()> {
    let level = operators::kind_to_precedence(k);
    let inside = operators::expression_precedence(k);
    print!(rt; "{k}: level {level}, in an expression {inside}")?;
    let binary = operators::map_binary_operator(k).map_or(0, |operator| operator as u8 + 1);
    let unary = operators::map_unary_operator(k).map_or(0, |operator| operator as u8 + 1);
    let logical = operators::map_logical_operator(k).map_or(0, |operator| operator as u8 + 1);
    let update = operators::map_update_operator(k).map_or(0, |operator| operator as u8 + 1);
    let assignment = operators::map_assignment_operator(k).map_or(0, |operator| operator as u8 + 1);
    print!(rt; ", binary {binary}, unary {unary}, logical {logical}, update {update}")?;
    println!(rt; ", assignment {assignment}")
}

fn main(rt: HostRuntime) -> io::Result<()> {
    for k in 0..=255 {
        print_line(&rt, k)?;
    }
    Ok(())
}
