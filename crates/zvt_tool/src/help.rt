//! Help texts of the program, and texts that several commands share.

/// The purpose of the program.
pub const PROGRAM: &str =
    "Inspect, record and audit the traffic between a till and its card terminal, or act as either one.
Speaks the payment profile of ZVT (PA00P015) over TCP.";

pub const FILES: &str = "The files to read, in order; standard input if there is none, or for '-'";

/// The names of the commands, as the usage line lists them.
pub const NAMES: &str =
    "show|join|normalise|audit|report|receipts|vectors|book|loop|till|terminal|tap|serve|play|check-till|check-terminal";

/// The text after the list of commands.
pub const MORE: &str = "\
show, join, normalise, audit, report and receipts read traces from the given FILEs, or from standard input if there is
none or for '-'. With several files, every output line starts with the name of its file. 'zvt FILE' is short for
'zvt show FILE' if FILE contains a dot or a slash.

Steps, run in the given order:
  register      Log the till on to the terminal; required before any other step
  pay:N         Pay the amount N
  decline:N:XX  Pay the amount N, but have the terminal decline it with code XX (loop only)
  reverse:N     Reverse the payment in entry N of the till's book; the first entry is 1
  close         Close the day
  ask           Ask the terminal for its last transaction, which may settle an unclear order (till only)
N is a positive number of at most 12 digits; amounts are in the smallest unit of the currency, such as cents.
pay:N:ref=R and reverse:N:ref=R keep the reference R in the till's book: 1 to 40 printable characters, no space.
XX is two hexadecimal digits, not 00.

Lines of a trace:
  > HEX   Bytes sent by the till, in hexadecimal
  < HEX   Bytes sent by the terminal
  !       Connection lost; both directions start afresh
  # TEXT  Comment. Empty lines are ignored.

Exit status:
  0  The command ran to its end. Whether money moved is in the result lines; --check checks it
  1  A trace or a tapped connection has invalid or incomplete messages, --check found an unclear payment, a case to act
     on or a step that did not succeed, 'play' met a difference, or a situation or a vector failed
  2  Invalid command line or step
  3  A file is not a valid trace or book, or is too long
  4  A file, a device or the connection failed
  5  Out of memory

Example:
  echo '> 06 01 0A 04 00 00 00 00 12 34 49 09 78' | zvt show";

pub const TRACE: &str =
    "Append a trace of the connection to FILE: the raw bytes, including passwords and card data";

pub const NO_TIMES: &str = "Write no time marks into the trace";

pub const KEEP_BOOK: &str =
    "Keep the till's book in FILE, so that it survives the process and any crash. FILE is created if it does not \
        exist. Use a new file for each day: a book holds at most 10000 entries.";

pub const NO_ASK: &str =
    "With --book, do not ask the terminal for its last transaction after registering. Some terminals print a copy of \
        the receipt when asked.";

pub const LOOSE: &str = "Accept padded lengths, as some terminals send them";

pub const OPEN: &str =
    "Read on after a refused message, at the end that its length announces: for terminals that send more than the \
        payment profile";

pub const OPEN_AUDIT: &str =
    "Read on after a refused message, at the end that its length announces, and count it by its control bytes: for \
        terminals that send more than the payment profile";

pub const OPEN_TILL: &str =
    "Go on after an invalid message, at the end that its length announces; an invalid status makes its payment unclear";

pub const OPEN_TERMINAL: &str =
    "Go on after an invalid message, at the end that its length announces, and reject it";

pub const JSON: &str = "Print one JSON object per line";

pub const FOLLOW: &str = "Read FILE as it grows, of any size, and print each line's text at once";

pub const TEXT_BLOCKS: &str =
    "Also print the lines of text blocks (06 D3), after a line that says whose copy of the receipt it is";

pub const CODEPAGE: &str =
    "Decode the lines from this code page to UTF-8: 437, 850, iso-8859-1 or utf-8. Without it, bytes that are not \
        ASCII are printed as \\xHH. Not with --json";

pub const CHECK_STEPS: &str =
    "Exit with 1 if a step does not succeed: not sent, declined, refused, aborted or unclear. The total is printed \
        all the same.";

pub const PLAY_HOST: &str = "Host name or address of the other side, or the address to listen on";

pub const PLAY_LOOSE: &str = "Accept padded lengths in what the other side sends";

pub const OPEN_PLAY: &str =
    "Go on after an invalid message of the other side, at the end that its length announces, and compare its bytes";

pub const CHECK_PORT: &str = "TCP port of each situation's connections";

pub const JUNIT: &str = "Also write the report to this file, in JUnit format";

pub const SITUATIONS: &str = "The situations, in order";
