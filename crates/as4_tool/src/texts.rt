//! The program's texts about itself.

/// The output of `--help`.
pub const HELP: &[u8] =
    b"as4: an AS4 message handler, programs to submit and collect documents, and tools to check messages

usage:
  as4 handler MODES JOURNAL PEER LOCAL      serves other handlers at PEER and your own programs at LOCAL
      [--workers N] [--turns T] [--keep L]
  as4 submit LOCAL MODE CONVERSATION MEDIA  submits the input to the handler at LOCAL, writes its response
  as4 collect LOCAL FIRST COUNT FOLDER      writes the documents that the handler at LOCAL received to files
  as4 audit MODES JOURNAL [--draw]          checks that a journal could have come about, writes its changes
  as4 relay MODES JOURNAL MODE COUNT        submits the documents that a journal has received onwards by MODE
  as4 answer STAMP NONCE                    reads a message file from the input, writes the answer to it
  as4 check                                 reads a message file from the input, writes a line that says what it is
  as4 drill [--draw | --hub]                runs the script in the input, writes what each line leads to
  as4 drill --generate SEED COUNT           runs a generated script, writes the numbers of both endpoints
  as4 suite [--verify | --list]             writes the conformance suite, or runs this program on it
  as4 --help, as4 COMMAND --help            writes this text
  as4 --version                             writes the version

MODES         the file of the modes, at most 1048576 bytes
JOURNAL       the path of the journal; the names of its three files begin with it
PEER, LOCAL   addresses of the form http://HOST:PORT/, at most 255 bytes; the port is 80 if it is missing
N             the number of workers at PEER, 1 to 11; 4 if it is missing
T             the number of turns of each worker, 0 to 9223372036854775808, which it is if it is missing
L             how many requests of one connection are answered, 1 to 1000; 1 if it is missing
MODE          the mode to submit by, 1 to 255 bytes
CONVERSATION  the conversation of the message, at most 255 bytes; empty for none
MEDIA         the media text of the document, such as text/plain: one line of at most 1024 bytes, or empty
FIRST         the number of the first entry to collect, 0 to 9223372036854775808
COUNT         of collect: the most entries to collect, 0 to 9223372036854775808
FOLDER        the folder of the files; entry 7 becomes FOLDER/7.as4
STAMP         the moment of the answer: milliseconds since 1970-01-01T00:00:00Z, 0 to 253402300799999
NONCE         makes the answer's identifiers unique: 0 to 340282366920938463463374607431768211455
SEED          what the sizes of the generated messages follow from: 0 to 18446744073709551615; 0 makes all of 40960 bytes
COUNT         of drill: how many messages the generated script submits: 0 to 1000
COUNT         of relay: the most documents to relay, 0 to 1048576
All numbers are decimal, without sign and without leading zeros. After -- a word that begins with - is a value.

The input of submit has at most 67174400 bytes. collect confirms an entry, and all entries before it, after it has
written its file, and writes a line for each: N collected, or N gone if the handler doesn't have the document any more.
It ends at the first number that the handler has no entry of. So FIRST is the first number that isn't collected yet.

audit reads the files of the journal, each of at most 1073741824 bytes, and locks and changes none. It writes a line for
each change that isn't part of a compaction, and last yes and the number of events, or no and the place of the first
record, from 0, that no event can have made:
  submitted NUMBER ID, tried NUMBER, receipted NUMBER, refused NUMBER EBMS:CODE   a message that was submitted here
  delivered NUMBER ID, confirmed NUMBER                                           a message that was received here
  ticked MOMENT                                                                   the clock was set

With --draw the output is a sequence diagram of at most 200 events instead, as an SVG document. That of audit shows the
records up to the first that is wrong. A script that is drawn has at most 67174400 bytes, and is drawn if each of its
lines is right.

suite writes for each of its 580 messages the name, a space and the line of check. With --verify it writes for each of
these messages, of 160 HTTP streams and of 100 scripts the name and ok, or differs if what this program makes of it isn't
what is wanted. With --list it writes for each message a line, which is NAME and the lengths of the media text, the body
and the wanted line of check, and then these three.

relay opens the journal, so no handler may run on it. Each received document that isn't relayed yet is submitted by the
mode, with a line for each: relayed NUMBER ID. The handler that is started next sends them. The number of submissions
says where relay goes on; so submit nothing else on that journal.

A message file has one header field, Content-Type: and the media text, then an empty line, and then the body. Both lines
end by CR LF. A message file has at most 67174400 bytes. The line of check is one of
  user ID                a user message of this identifier
  pull CHANNEL           a pull request for this channel
  receipt ID             a receipt of this message
  errors COUNT           COUNT errors
  pair ID CHANNEL        a receipt of this message with a pull request for this channel
  refused EBMS:CODE ID   no message: by the error of this code, with the identifier if its header was read
CHANNEL is written as the message has it. So a line may hold a line end of the channel's name.

The lines of a script, each ended by LF, with one space between words. END is a or b; NAME and MODE are 1 to 32 of a to
z and 0 to 9; PACKAGE and NUMBER count from 0:
  mode NAME WAY RETRIES PERIOD    both ends have this mode: WAY is push or pull, a period has 1 to 1000000000
                                  milliseconds, retries are at most 1000; modes come first
  submit END MODE LOAD            submits a message: LOAD is none, hex=DIGITS with two of 0 to 9 and a to f for a byte,
                                  or size=BYTES, at most 16777216
  tick END MOMENT                 sets the clock of the end, in milliseconds
  take END                        sends what is to be pushed next
  ask END MODE                    sends a pull request
  pair END MODE NUMBER            the same, with the receipt of this message of the inbox
  came END PACKAGE                what the other end sent under this number comes in, and is answered
  lost END PACKAGE                the same, and the answer is lost
  read END NUMBER                 shows a message of the inbox
  confirm END NUMBER              confirms the messages of the inbox up to this one
  status END NUMBER               shows the state of a message that was submitted
  crash END                       the power of the end fails: its disk, as it was last written, is opened again
  stop CALL PICK LINE             runs a LINE of submit, tick, take, came or confirm: its device call CALL, 1 to 4, is
                                  the last to act, and its answer is lost. Of what the disk may hold then, that of PICK
                                  is opened again: old, new or other
  fold END                        compacts the journal of the end, if that makes it shorter
A script has at most 1000000 lines of at most 1048576 bytes each, names at most 1024 modes and makes at most 100000
events: each line but mode, crash and fold makes one, if the package or the submission that it names exists.

With --hub the script is of a chain of three: f submits to the hub h, which relays to l. END is f, h or l. Its lines are
those above but pair and fold, and these are different:
  mode NAME LINK WAY RETRIES PERIOD
                                  LINK is fh, whose WAY is push, or hl
  relay h MODE                    the hub submits the next message of its inbox onwards
  came END FROM PACKAGE, lost END FROM PACKAGE
                                  what FROM sent under this number comes in, if it was sent to END
submit is for f, ask for l, take and status for f and h, read and confirm for h and l. A submit or relay line whose mode
has another link makes no event.

exit statuses, each but 0 and 1 with one line on the errors, as it is here up to the colon:
   0  done
   1  check: the message is refused, as the output says; submit, collect: the handler refused the request; audit: no;
      suite --verify: a row differs
   2  line N: this line of the script, the first being 1, isn't one of a script, or not in its place; a script of a
      chain needs --hub
   3  read fault: the input or a response can't be read to its end
   4  write fault: the output, or a request, has only a prefix of what was to be written
   5  no memory: what was to be done next needs more
   6  more than 100000 events: the next line of the script would make one too many
   7  not a user message: the message that was to be answered is a signal or a pair
   8  modes refused: the file of the modes is missing, too long or not one of modes
   9  host fault: a file, a connection or the journal failed, or another process has it
  10  not a journal at N: the files of the journal aren't one from byte N on
  11  input too long: the input, or a file of an audited journal, has more bytes
  12  bad response: the handler's response is cut off, too long or none
  14  relay: the next document isn't relayed, for one of these reasons. no mode: no mode has that name; gone: it was
      confirmed before; outbox full: no number is left; too large: it can't be submitted; journal full
  64  bad words: none of the usages above, or a number out of range; words after --help and --version are ignored
If several apply, 3, 4, 5, 9 and 11 come first, in this order. On all but 0, 1 and 4 nothing is written to the output,
except by a drill of a script that isn't drawn, by collect, by relay and by suite: they write the lines before.
";

/// The output of `--version`.
pub const VERSION: &[u8] = b"as4 1.0.0\n";
