// Help on the desk's own commands.

pub const BAIL: &[&[u8]] = &[
    b"  bail on
      the desk ends at the first line that is not answered ok: for scripts, and for lines pasted in
  bail off
      it goes on, as it does from the start unless it is started as desk --bail
  changes
    nothing in the box
  example, on an issued box
    > bail on
    ok
    > bail off
    ok
",
];

pub const QUIT: &[&[u8]] = &[
    b"  quit
  exit
      the desk ends; so it does at the end of its input. What was answered ok is in the box file
  changes
    nothing in the box
  example, on an issued box
    > quit
    ok
",
];

pub const HELP: &[&[u8]] = &[
    b"  help
  ?
      every command in a line or two
  help COMMAND
      its form, what its words mean and in which unit, what it changes, what it may be refused for
      and what to do then, and an example
  help round, help order, help example, help lots, help units, help letters, help refusals
      how a round goes; whether it matters who filed first; a small auction to type in; how
      withdrawals are typed; units of prices and the like; the letters of the refusals in words; the
      numbers of the refusals
  changes
    nothing
  example, on an issued box
    > help count
    ok
",
];
