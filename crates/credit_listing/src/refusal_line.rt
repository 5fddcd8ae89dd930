//! Why an order is not answered, as a line.
ghost use Rattle.std.specs.Prelude.{◌++◌, codes, decimal};
ghost use Rattle.desk_connections.specs.Connections.{Prints};
ghost use Rattle.society_core.specs.Orders.{order_fault_number};
ghost use Rattle.work_ids.specs.Blanks.{without_trailing_blanks};
ghost use Rattle.credit_listing.specs.Told.{front_text, refusal_line, refusal_words};

use desk_connections::{print, print_number};
use http_desk::Counted;
use http_text::dated_text_of;
use society_core::{OrderFault, Refusal, ReturnKey};
use std::io::Write;
use work_ids::{FIRST_YEAR, SenderKey};

// Prints a front, given by its rank: a plain number, or one of a year as 26-0001.
fn print_front<E: Write>(err: &mut Counted<E>, front: u32)
    ensures { Prints E.contents err.old err.new (front_text front) }
{
    if front < FIRST_YEAR {
        print_number(err, u128::from(front));
    } else {
        print(err, &dated_text_of(front));
    }
}

// Prints that a number of a cut is not in its sender's line.
fn print_cut<E: Write>(err: &mut Counted<E>, sender: &SenderKey, front: u32)
    ensures { Prints E.contents err.old err.new (codes "cut " ++ sender.now ++ codes " front " ++ front_text front) }
{
    print(err, b"cut ");
    print(err, sender.as_bytes());
    print(err, b" front ");
    print_front(err, front);
}

// Prints that a return is not there.
fn print_return<E: Write>(err: &mut Counted<E>, key: &ReturnKey)
    ensures { Prints E.contents err.old err.new (codes "no return " ++ without_trailing_blanks key.now.reporter ++ codes " " ++ decimal key.now.number) }
{
    print(err, b"no return ");
    print(err, key.reporter.as_bytes());
    print(err, b" ");
    print_number(err, u128::from(key.number.value()));
}

// Prints that a line spells no order.
fn print_fault<E: Write>(err: &mut Counted<E>, fault: OrderFault)
    ensures { Prints E.contents err.old err.new (codes "fault " ++ decimal (order_fault_number fault)) }
{
    print(err, b"fault ");
    print_number(err, u128::from(fault.number()));
}

// Prints why an order is not answered.
fn print_refusal<E: Write>(err: &mut Counted<E>, refusal: &Refusal)
    ensures { Prints E.contents err.old err.new (refusal_words refusal.now) }
{
    match refusal {
        Refusal::Order(fault) => print_fault(err, *fault),
        Refusal::Cut { sender, front } => print_cut(err, sender, *front),
        Refusal::ReturnUnknown(key) => print_return(err, key),
        _ => {}
    }
}

/// Prints the line that says why the order of this number is not answered; what is not taken of it is passed over.
pub(crate) fn tell_refusal<E: Write>(err: &mut Counted<E>, number: u64, refusal: &Refusal)
    ensures { Prints E.contents err.old err.new (refusal_line number refusal.now) }
{
    print(err, b"society: order ");
    print_number(err, u128::from(number));
    print(err, b": ");
    print_refusal(err, refusal);
    print(err, b"\n");
}
