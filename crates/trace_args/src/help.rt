// The texts that the program tells of itself.

/// The program's name and version.
pub const VERSION: &str = "trace_cmd 1.0.0\n";

/// The help of the whole program.
pub const PROGRAM: &str = "\
trace_cmd: report, cut, restore and inspect trace.dat files.

Usage: trace_cmd COMMAND [options] [arguments]

Commands:
  report        print the events of a trace, or of several traces together
  split         cut a trace into smaller trace files
  restore       make a trace file of what an interrupted recording left
  dump          print what the header of a trace file says
  selftest      make a trace in memory, and sum up the report of it

  help, -h, --help    print this text
  --version           print the version
  COMMAND --help      print the options of a command

The files are those that trace-cmd records, of version 6. Nothing is recorded.
Options without a value can share a word (-tl). A value stands in the same
word or in the next (--cpu=1, --cpu 1). After -- no word is an option.

Exit status: 0 all was done, 1 command line not understood, 2 not a readable
trace file, 3 malformed part of the trace, 4 read failed, 5 write failed,
6 out of memory, 7 a word is not UTF-8.

Read more: man trace_cmd
";

/// The help of `report`.
pub const REPORT: &str = "\
trace_cmd report: print the events of a trace in the order of their times.

Usage: trace_cmd report [options] [FILE]
       trace_cmd report [options] -i FILE -i FILE ..

  -i FILE       read this file; up to eight files make one report
  -F FILTER     show the events that it matches: EVENT[,EVENT..][:CONDITION]
  -v            the filters after it hide the events that they match
  -t            print times to the nanosecond, not rounded to microseconds
  --ts-diff     print after each time the difference to that of the event before
  -l            print the latency columns
  -R            print all fields of all events as they are
  -r EVENT      print all fields of the events of this name as they are
  -I            hide the events in a hard interrupt
  -S            hide the events in a soft interrupt
  --cpu LIST    show only these processors, as in 0,2,4-7
  -w            print after the events how long each woken task waited
  --workers N   form the lines on up to N threads, 1 to 64; same output
  -N            no effect: there are no plugins
  -h, --help    print this text

In place of the events:
  -E            print the names of all events of which the file has a format
  --events      print the formats of these events
  -f            print the kernel's symbols by rising address
  -P            print the printk formats by rising address
  --calls       print the calls of the function graph, with their durations

Without a FILE, trace.dat is read.
Read more: man trace_cmd
";

/// The help of `split`.
pub const SPLIT: &str = "\
trace_cmd split: cut a trace into smaller trace files, BASE.1, BASE.2 and so on.

Usage: trace_cmd split [options] [START [END]]

  -i FILE       cut this file; without it, trace.dat
  -o BASE       begin the new names with BASE; without it, with the input's name
  -s N          put N seconds of events into a file
  -m N          put N milliseconds of events into a file
  -u N          put N microseconds of events into a file
  -e N          put N events into a file
  -r            make further files as long as something is left
  -c            count N on each processor by itself
  -C CPU        take only this processor
  -h, --help    print this text

Only what happened from START on and up to END is taken. Both are in seconds.
One of -s, -m, -u and -e can be given; without it a file takes everything.
Without -r there is one file.
Read more: man trace_cmd
";

/// The help of `restore`.
pub const RESTORE: &str = "\
trace_cmd restore: make a trace file of what an interrupted recording left.

Usage: trace_cmd restore -i PARTIAL [-o FILE] CPUFILE ..

  -i PARTIAL    read the descriptions from this file; it must be given
  -o FILE       make this file; without it, trace.dat
  -h, --help    print this text

Each CPUFILE has the raw data of one processor. There are 1 to 256 of them, in
the order of the processors.
Read more: man trace_cmd
";

/// The help of `dump`.
pub const DUMP: &str = "\
trace_cmd dump: print what the header of a trace file says.

Usage: trace_cmd dump [options] [FILE]

  -i FILE           read this file
  --summary         print version, byte order, sizes and counts
  --head-page       print the kernel's text header_page
  --head-event      print the kernel's text header_event
  --ftrace-events   print the formats of ftrace's own events
  --systems         print each other system with its number of events
  --events          print the format of each event of these systems
  --kallsyms        print the kernel's symbols
  --printk          print the printk formats
  --cmd-lines       print the saved names of tasks
  --options         print the id and the size of each option of the file
  --flyrecord       print the place and the size of each processor's data
  --validate        print 'valid' if the header can be read
  --all             print all sections but that of --validate
  -h, --help        print this text

The sections are printed in this order. Without one, it is --summary.
Without a FILE, trace.dat is read.
Read more: man trace_cmd
";

/// The help of `selftest`.
pub const SELFTEST: &str = "\
trace_cmd selftest: make a trace in memory, and sum up the report of it.

Usage: trace_cmd selftest SEED EVENTS [--workers N]

  SEED          make the trace from this number
  EVENTS        make so many events, 0 to 1000000
  --workers N   form the lines on up to N threads, 1 to 64; same output
  -h, --help    print this text

The same SEED and EVENTS give the same line on every machine.
Read more: man trace_cmd
";
