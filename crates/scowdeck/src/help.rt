use printing::say;

// ./scowdeck prints this text from here.
pub fn help(rt: &impl Print) {
    say(
        rt,
        "scowdeck FILE LENGTH SPACECRAFT CHECK OUT

Reads the telemetry frames that lie end to end in FILE and writes the packets of
virtual channel v to the file OUT.v, v being 0 to 7, one behind the other.
Each run starts fresh: a packet begun in one FILE and ended in the next is lost.

  FILE        the recording: frames and nothing else; it is not changed
  LENGTH      octets of a frame, 13 to 2048
  SPACECRAFT  its number, 0 to 1023
  CHECK       yes if the last two octets of a frame are error control, else no;
              a wrong no is not refused: packets get lost, or come out wrong
  OUT         all eight files are made at the start; one that is there already is
              never overwritten: choose another OUT, or move the file away;
              an OUT that ends in / is refused

A line a frame tells what came of it. delivered, idle: packets; gap: frames missing
before it, modulo 256 (255 if it came twice); broken: a packet was cut off;
disagreement: the pointer is not where the packet under way ends; foreign: a header
that is no source packet's; oversize: a packet above 4096 octets, which is passed
over. A frame that is refused changes nothing: refused=NUMBER why=\"WORDS\".

Then a line a channel has the sums, and octets and check (of a file below 65536
octets, by X^16+X^12+X^5+1 from ones) of OUT.v read back. In the last line busy
channels have a packet under way; result=complete says that all was read and saved,
and not that frames were accepted: look at refused=. What goes wrong is said on
standard error.

Exit status of ./scowdeck: 0 complete, or help; 1 not; 2 not built, or OUT ends in /
",
    );
}
