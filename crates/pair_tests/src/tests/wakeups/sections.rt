// Rows of sections, worked out by hand.

/// Each row ends at a `#`. Its first line tells what it shows, its second the sub-buffers of processor 0 and, after a `&`, those of
/// processor 1, and the others are the section. An event is told by its id, the number of its task and its time; see `formats` for
/// the ids, and `recording_of` for the rest. A row of the title `a full sink` has what a sink takes that has
/// room for 12 bytes, and in one of `no read from` the file's bytes from there cannot be read.
pub(super) const ROWS: &str = "\
the wake-up that first woke the task counts, and a switch without one is not paired
10:42@1000 10:42@3000 11:42@10500 11:42@12000&empty
wakeups=1
           <...>-42    [000]     0.000011: latency 9.500 us
average 9.500 us
maximum 9.500 us at 0.000011
minimum 9.500 us at 0.000011
#a loss ends all waits
10:42@1000 10:42@3000 / ! 11:42@10500 11:42@12000&empty
wakeups=0
#a loss on another processor ends them too
10:42@1000 11:42@10000&! 10:7@5000
wakeups=0
#what was lost before a wake-up does not matter to it
10:42@1000 / ! 10:42@2000 11:42@2500&empty
wakeups=1
           <...>-42    [000]     0.000003: latency 0.500 us
average 0.500 us
maximum 0.500 us at 0.000003
minimum 0.500 us at 0.000003
#at one time the lower processor comes first
10:42@1000&11:42@1000
wakeups=1
           <...>-42    [001]     0.000001: latency 0.000 us
average 0.000 us
maximum 0.000 us at 0.000001
minimum 0.000 us at 0.000001
#and so a wake-up on the higher processor comes last
11:42@1000&10:42@1000
wakeups=0
#a switch whose own time is lower waited for no time
10:42@5000 / 11:42@3000&empty
wakeups=1
           <...>-42    [000]     0.000003: latency 0.000 us
average 0.000 us
maximum 0.000 us at 0.000003
minimum 0.000 us at 0.000003
#times are the events' own: the wake-up's key is 9000
13:1@9000 / 10:42@3000 11:42@3500&empty
wakeups=1
           <...>-42    [000]     0.000004: latency 0.500 us
average 0.500 us
maximum 0.500 us at 0.000004
minimum 0.500 us at 0.000004
#a new task
12:7@1000 11:7@2500&empty
wakeups=1
              sh-7     [000]     0.000003: latency 1.500 us
average 1.500 us
maximum 1.500 us at 0.000003
minimum 1.500 us at 0.000003
#the idle task is one like others
10:0@1000&11:0@2000
wakeups=1
          <idle>-0     [001]     0.000002: latency 1.000 us
average 1.000 us
maximum 1.000 us at 0.000002
minimum 1.000 us at 0.000002
#the same name in another system, and another name
13:42@1000 14:42@2000 11:42@3000&empty
wakeups=0
#numbers of 8 bytes, modulo 2^32
20:4294967338@1000 11:42@2000 10:42@3000 30:4294967338@5000&empty
wakeups=2
           <...>-42    [000]     0.000002: latency 1.000 us
           <...>-42    [000]     0.000005: latency 2.000 us
average 1.500 us
maximum 2.000 us at 0.000005
minimum 1.000 us at 0.000002
#numbers of 2 bytes with a sign
21:65534@1000 11:4294967294@2000&empty
wakeups=1
           <...>--2    [000]     0.000002: latency 1.000 us
average 1.000 us
maximum 1.000 us at 0.000002
minimum 1.000 us at 0.000002
#3 bytes are no number, and the format of a wake-up may lack the field
22:42@1000 23:42@2000 11:42@3000&empty
wakeups=0
#the format of a switch may lack the field
10:42@1000 33:42@2000 11:42@3000&empty
wakeups=1
           <...>-42    [000]     0.000003: latency 2.000 us
average 2.000 us
maximum 2.000 us at 0.000003
minimum 2.000 us at 0.000003
#pairs stand in the order of the switches; the average is cut to nanoseconds
10:42@1000 10:7@1500 11:7@2000 11:42@2601&empty
wakeups=2
              sh-7     [000]     0.000002: latency 0.500 us
           <...>-42    [000]     0.000003: latency 1.601 us
average 1.050 us
maximum 1.601 us at 0.000003
minimum 0.500 us at 0.000002
#of equal latencies the first is told
10:42@1000 11:42@2000 10:7@3000 11:7@6000 10:42@7000 11:42@10000 10:7@11000 11:7@12000&empty
wakeups=4
           <...>-42    [000]     0.000002: latency 1.000 us
              sh-7     [000]     0.000006: latency 3.000 us
           <...>-42    [000]     0.000010: latency 3.000 us
              sh-7     [000]     0.000012: latency 1.000 us
average 2.000 us
maximum 3.000 us at 0.000006
minimum 1.000 us at 0.000002
#items after the first malformed sub-buffer are not reached
10:42@1000 11:42@2000 / malformed&10:7@1500 11:7@3000
wakeups=1
           <...>-42    [000]     0.000002: latency 1.000 us
average 1.000 us
maximum 1.000 us at 0.000002
minimum 1.000 us at 0.000002
#a malformed sub-buffer comes first
malformed&10:7@1500 11:7@3000
wakeups=0
#no read from 0
10:42@1000&11:42@2000
#no read from 5000
10:42@1000&11:42@2000
#a full sink
10:42@1000&11:42@2000
wakeups=1
  ";

/// With the columns of latencies and all digits of times.
pub(super) const IN_FULL: &str = "\
in full
10:42@1000 10:42@3000 11:42@10500&empty
wakeups=1
   <...>-42      0....     0.000010500: latency 9.500 us
average 9.500 us
maximum 9.500 us at 0.000010500
minimum 9.500 us at 0.000010500
";
