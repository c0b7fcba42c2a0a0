//! The texts of the help: what each subcommand does, what it prints, and what its exit statuses mean.

pub(crate) const ABOUT: &str =
    "Serves sessions of the SSH File Transfer Protocol, version 3, and audits recorded ones";

pub(crate) const STATUSES: &str = "Exit status:
  0  the session was served or is accepted, the file was written, the trees are the same, or help or the version was
     shown
  1  the session is refused, the client broke the protocol, or the trees differ
  2  bad usage, or a malformed or unknown input file or text
  3  a file or a stream cannot be read or written, or memory ran out

With status 3, a second line on standard error has the system's reason, if it is known.";

pub(crate) const ABOUT_SERVE: &str =
    "Serves one session over standard input and output, on a file tree in memory";

pub(crate) const AFTER_SERVE: &str =
    "Nothing but packets is written to standard output, so sshd can run this as a subsystem, and
'sftp -D' and sshfs as their server. The tree file itself does not change; --save keeps the changes. The file is
replaced whole: the tree goes into a new file beside it, FILE.new-N, which is on the disk when it is renamed. If that
fails, FILE is unchanged. FILE has to be a regular file or standard output. --record empties its file, which no other
session may be recording into, and which may not be that of --tree or --save.

With --shuffle N, N fixes the choice among the requests that have arrived; how many have depends on the client's timing.
With --replay, each request is awaited where the transcript has it, and each reply sent there, so a client that asks the
same gets the same order. Each reply is that of the transcript where the tree allows it, names of handles too. Where the
client asks otherwise or ends its input, the session goes on in the order asked, and a line on standard error says so:
'sftpv3: replay: left at record N: WHY'. The transcript is read twice, so it cannot be a pipe.

With --memory, the session ends as if memory ran out when a reply is due and the process has more than BYTES. One
request may take as much as a file or a listing has before that. The tree is then saved, an entry at a time.

With --vary, the server uses what the draft leaves free; N fixes its choices, in the order in which requests are done:
  handles     names of new handles: 0 to 256 bytes of any values
  listings    which names of a directory a reply gives, how many, and in which order
  longnames   long names: lines of any layout
  times       times in attributes, there or not, of any values
  pairs       extended pairs in attributes
  attributes  all attributes in the replies to REALPATH and READLINK
  codes       the code of a refusal, where several fit
  texts       messages and language tags
  cuts        where the output is cut: writes of one byte up to a packet
  versions    the pairs of names and data in VERSION
--only uses some of these, by the same choices. --only or --wild without --vary takes 0 for N.

With --texts, the message of each refusal says in English why, and which limit of the tree was met. With --long-names,
'ls -l' of a client shows what it does on a folder, but for the count of names, which is 1, and the date, which has the
year, and is that of 1970 without --times. The freedoms texts and longnames of --vary come before them.

With --times, all attributes have times of access and modification. Requests give some; otherwise what is made has the
time of then, and a file that is written to or truncated, and a directory whose names change, is modified then. At the
start all have the times of the tree file, or that of the start where it has none. --save writes times, but for those of
what had none and was left alone. --vary and --replay come before it.

With --verbose, standard error has a line when the session opens, and one when it ends: how, the number of requests, the
bytes read and written, the number of entries in the tree, and whether the tree was saved.

If the client breaks the protocol, the requests before that are answered, the tree is saved, and
'sftpv3: session fault: FAULT' is printed on standard error. FAULT is one of:
  KIND at PLACE  the packet at this byte of the input cannot be read
  IdInUse ID     a request has the id of one that is not answered
  BadInit        the first packet is not an INIT or its version is below 3, or a later one is an INIT
  Cut at PLACE   the input ends inside the packet at this byte";

pub(crate) const ABOUT_AUDIT: &str = "Checks every reply of a recorded session against a file tree";

pub(crate) const ABOUT_INFER: &str =
    "Infers a file tree from a recorded session, and checks every reply of the session against it";

pub(crate) const AFTER_INFER: &str =
    "For the sessions of a server whose files nobody can look into. The tree is made of what the replies tell. The
session is then audited with it, as 'audit' does, and TREE is written only if it is accepted:

  inferred 15 entries from 57 requests; accepted

So an acceptance is a proof that some tree explains the session. What the tree has beyond what replies tell is said on
standard error, a line each:

  assumed: \"/pub/hard\" and \"/b.bin\" name one file (record 16)

If no tree is found, the exit status is 1, and the two records are named that contradict each other:

  no tree found: record 34 contradicts record 20

This is no proof that there is none. With --explain, standard error has both records, what each told, the request that
the second one answers, how many passes were tried, and how to look closer. A pass begins anew with what an earlier one
learned. --best writes the tree that came furthest: 'audit --keep-going' with it says what else is wrong.

A session that ended early is refused: 'record N: Unanswered' names the first request that has no reply. To judge what
comes before it, make a transcript of those records, here of N-1 = 6, infer a tree from it, and audit with that:

  sftpv3 show --full --data all FILE | head -n 6 | sftpv3 make BEFORE
  sftpv3 infer --transcript BEFORE TREE && sftpv3 audit --cut --tree TREE --transcript FILE

The transcript is in memory, and so are the files that the session has, which are made of its bytes: up to twice the
transcript together, and 1 KB for each place. With --out, the tree file of the end comes on top. A file of which the
size alone is known takes as much as it has. All files together may have as many bytes as the transcript, and 1 GiB;
with --memory they and the transcript together may have BYTES. Otherwise the status is 3, and standard error says so:

  no tree: the files of the session have 8589934592 bytes in all; more than 1 GiB needs '--memory'
  sftpv3: out of memory

'sftpv3 audit --tree unknown' does the same, and writes no tree at the start. A tree file of that name is './unknown'.";

pub(crate) const ABOUT_SHOW: &str =
    "Prints what a transcript or a tree file holds, a line for each record or entry";

pub(crate) const ABOUT_MAKE: &str =
    "Writes the transcript or the tree file whose text is on standard input, as 'show --full --data all' prints it";

pub(crate) const AFTER_MAKE: &str = "The text of a transcript has a line for each record, such as

  C INIT 3
  S VERSION 3 \"posix-rename@openssh.com\"=\"1\"
  C 1 OPEN \"/f\" READ|CREAT size=5 permissions=0644
  S 1 HANDLE \"h\"
  C 2 WRITE \"h\" 0 \"abc\"
  S 2 STATUS 0
  C raw 0000000103

That of a tree file begins with the lines of its head and of its root, and has a line for each entry:

  home \"/\" uid 0 gid 0 entries 3
  D \"/\" 0 0 0755
  F \"/f\" 0 0 0644 \"abc\"
  H \"/g\" 1
  L \"/l\" \"f\"

The head may have limits, four or five. Below five of them, kinds in small letters have the times of access and of
modification after the permissions, and a file of 2^32 bytes or more has the kind G, or g with times:

  home \"/\" uid 0 gid 0 limits 65536 16777216 32768 256 288230376151711744 entries 1
  D \"/\" 0 0 0755
  f \"/f\" 0 0 0644 2 3 \"abc\"

Blank lines, and lines that begin with #, say nothing. What the bytes of the file mean is not judged: 'show' and 'audit'
do that. Where the text is malformed, the line, the column and the word are named, and no file is written.";

pub(crate) const AFTER_SHOW: &str =
    "The line of a record has its number, C or S for the side that sent the packet, the packet's name, its id (the
version of an INIT or a VERSION), and the packet's length in bytes; then the code of a STATUS, or the paths of a
request.

The first line of a tree file has the home, the owner of new entries, the limits if the tree sets its own (entries,
bytes of a file, bytes that one READ gives, open handles), and the number of entries. The line of an entry has its
number, its kind (D directory, F file, H further name of a file, L link) and its path; then the uid, gid and permissions
of a directory or a file, the length of a file in bytes, the number of the entry that a further name belongs to, or the
target of a link. If anything has times, or a limit is above the highest of 'raise', there is a fifth limit, the bytes
of all files together. Then kinds in small letters have the times of access and of modification after the permissions,
in seconds since 1970, and G and g are files of 2^32 bytes or more:

  1 f \"/f\" 0 0 0644 2 3 3

Bytes other than printable ASCII, and \" and \\, are shown as \\x and two hexadecimal digits.

With --full, a line has each field of its record or entry. A record that is no packet of the protocol is shown as raw
and its bytes in hexadecimal. Of a text in quotes, and of a raw record, the first 256 bytes are printed, or as many as
--data says, and then how many more there are:

  S 3 DATA \"abcdef\"...32762 more

With --data all, nothing is cut off, and 'make' makes the same file of the lines.

With --json, a line has the fields of --full as a JSON object. Bytes that are UTF-8 are a string, NAME; others are
hexadecimal digits, NAME_hex; where they are cut as with --full, NAME_length says how many there are.

With --times, lines begin with the seconds from the start on, or - where they are not known, and lines of replies say
how long the request took. With this or any of --id, --path, --handle, --records, --pairs and --overtaken, the line of a
reply that came before the reply to an earlier request ends in 'overtook' and the number of that request's record.

PATH and HANDLE are texts as 'show' prints them, without the quotes. A-B may be A-, -B or A. Several selections select
what meets them all. With --pairs, requests without a reply come last. If nothing is selected, the status is 1.

With --exchanges, a line has a request and its reply, each with the number of its record and its fields by name:

  7 READ id=3 handle=\"h\" offset=4 length=4 -> 8 STATUS code=1 took 0.000120

EXPRESSION is made of conditions, with '!', '&&', '||' and parentheses:

  READ, DATA, EOF            the request or the reply is this packet, or the reply has this code
  offset                     there is such a field, with a name of --json: that of the request, else that of the reply
  offset > 1e6               ==, !=, <, <=, >, >= and a number (0x.. hexadecimal, 0.. octal); false without the field
  path == \"/f\"               ==, != or ~ (contains) and a text as 'show' prints it; path_length is how long it is
  reply != EOF, code == EOF  ==, != and the name of a packet or of a code
  flags ~ CREAT              the flag is set
  reply.handle, request.id   the field of the reply or of the request alone

--handle-of follows a file: through each handle that an OPEN or an OPENDIR of PATH gets, until it is closed.

With --stat, a line has the figures of each kind of request that is selected: how many there are, how many were refused
by a STATUS other than OK and EOF, how many have no reply, and the bytes of the requests' packets, of the replies' and
of the data in them; with --times also how long they took: what half of them and 99 of 100 did not exceed, and the
longest, and then the ten slowest. What was at most in flight and open at a time is of the whole session.

With --explain, a line on standard error says where a malformed file is so: the field of the fault, and the place of its
first byte in the file, from 0.

With --full and --memory, a file is shown up to a record or an entry of more than a thirty-second of BYTES, and a pipe
of more is not shown.";

pub(crate) const ABOUT_DIFF: &str = "Prints how two tree files differ, a line for each path";

pub(crate) const AFTER_DIFF: &str = "A line has the path, and then one or more of

  added, removed                    the path is in B alone, in A alone
  kind D -> L                       D directory, F file, L link
  first name \"/f\" -> \"/g\"         the path names another file: its names begin with another one
  owner 0,0 -> 1000,1000            the uid and the gid
  permissions 0755 -> 0700
  length 3 -> 5                     of a file, in bytes
  times 0,0 -> 3,7                  of access and of modification, with --times
  content from byte N               the first byte that differs, from 0
  target \"a\" -> \"b\"               of a link

If the home differs, the owner of new entries, or the limits, the first line begins with head and has home, owner and
limits. The bytes of a file are compared at its first name. The exit status is 0 if the trees are the same, and 1 if
they differ. Without --times, trees are the same that differ in times alone. With --memory, files of more than a
thirty-second of BYTES are not compared.

With --json, each line is a JSON object with the members change, path and kind, and one for each thing that differs.";

pub(crate) const ABOUT_IMPORT: &str =
    "Writes the tree file of the archive on standard input, which is in a format of tar";

pub(crate) const AFTER_IMPORT: &str = "The tree of the folder DIR:

  tar -C DIR -c . | sftpv3 import TREE

The archive may be ustar, or in the formats of POSIX's pax or of GNU tar, in any order in which a hard link comes after
its file. The last entry of a path counts. The file is replaced whole, and only if the archive is taken.

An archive that is cut, that cannot be read, or that has what no tree can hold is refused, with the number of the entry
and its path if it can be read:

  sftpv3: archive: entry 2, \"a/../b\": a path with `..`

Refused are, among others, a wrong checksum, a path with '..', a device, a FIFO, a sparse file, a hard link to a name
that does not come before it, a directory that is also a file or a link, a name of more than 255 bytes, a path of more
than 64 names, and what the limits have no room for; and a compressed archive, by the name of what compressed it.

With --memory, an archive is not taken whose entries, with the directories that it does not name, take more than BYTES.
The memory is looked at before each entry, and before more of a long one is read; one entry may go beyond.

  --limits usual    65,536 entries, and files of 16,777,216 bytes, as without the option
  --limits raised   1,048,576 entries, and files of 67,108,864 bytes: the limits that 'sftpv3 raise' sets
  --limits most     4,294,967,293 entries, and files of 1,099,511,627,776 bytes: the highest limits that there are
  --limits fit      the lowest limits that hold the archive: the usual ones, or as many entries, and as many bytes of a
                    file, as it has above them. What 'export' wrote of any tree is taken.

The tree file has the times of modification of directories and files, and those of access that extended headers give;
times before 1970 are 0, and those after 2106 the last second that a tree file holds. Links have no times. With
--no-times, and if all are 0, the tree file has none, and earlier versions read it.

  --special refuse  an archive with a device or a FIFO is refused, as without the option
  --special skip    they are left out
  --special file    each is an empty file with its owner and permissions; 'sftpv3 audit --allow special', which is part
                    of its profiles, accepts a listing that shows it as a device or a FIFO

With skip and file, standard error names each of them:

  sftpv3: archive: entry 5, \"dev/null\": a device or a FIFO: left out (--special file keeps its name)";

pub(crate) const ABOUT_EXPORT: &str =
    "Writes the archive of a tree file to standard output, in a format of tar";

pub(crate) const AFTER_EXPORT: &str = "A folder DIR with the files of a tree:

  sftpv3 export FILE | tar -C DIR -x -p

The archive is ustar, with the extended headers of POSIX's pax where a name, a user, a group or a size needs more room,
and for times of access that are not 0. Links have the time 0. The archive has all of the tree but where relative
paths start, who owns what is made with no owner given, and the limits.";

pub(crate) const ABOUT_BLANK: &str =
    "Writes the tree file of a tree that holds only the root directory";

pub(crate) const ABOUT_RAISE: &str = "Writes a tree file with other limits, the highest by default";

pub(crate) const AFTER_RAISE: &str = "All else of the tree is the same. The limits in FILE are, with

  --to highest  --to most
  1,048,576     4,294,967,293      entries below the root
  67,108,864    1,099,511,627,776  bytes of a file
  65,536        261,120            bytes that one READ gives
  1,024         65,536             open handles

A limit on the bytes of all files together stays with --to highest, and goes with --to most and --to fit.
A limit of TREE that is above the highest stays. With --to fit, the limits are the usual ones, or as many entries, and
as many bytes of a file, as TREE has above them. Earlier versions do not read a FILE with a limit above the highest.

FILE is replaced whole, and may be TREE.";

pub(crate) const AFTER_AUDIT: &str =
    "Prints 'accepted N requests', or 'refused record N: KIND'. Records are numbered from 1.

KIND is one of:
  UnknownReply  no unanswered request has the id of this reply
  IdInUse       an unanswered request has the id of this request
  Window        the 1,024th request before this one is still unanswered
  NotAllowed    the tree does not allow this reply
  NotModelled   by a profile: an extension was done that may have changed anything, or what the tree cannot hold
  Unanswered    this request has no reply

With --explain, standard error says more of a refusal: the lines of the request and of the reply, as 'show' prints them;
for UnknownReply, the last request of the id, and its reply; for IdInUse and Window, the unanswered request; and for
NotAllowed, the causes that refuse the request with the status codes that they allow, the reply that is expected, and
how the reply found differs; for NotModelled, the name of the extension or what the tree lacks, too; for Unanswered, how
many requests before it are accepted. For this the transcript is read again, so it cannot be a pipe. If the tree file or
the transcript is malformed, a line has the field of the fault, and the place of its first byte in the file, from 0.

With --cut, a session whose connection was cut is accepted if all that can be judged is right, with the line

  accepted N requests, M unanswered, K not judged

The N requests before the oldest unanswered one were judged, with their replies. M requests have no reply. The other K
come after the oldest unanswered one and have replies, which nobody can judge; where there are none, the line ends with
'unanswered'. --out writes the tree after the N requests. A session in which each request has its reply gets the line
that it gets without --cut. Every refusal but Unanswered stays.

With --keep-going, the audit goes on after a wrong reply that changed nothing, as if it and its request were not there.
Each finding has a line, and the last line says how many there are:

  N findings, accepted M requests          the rest that was judged is right, if what was left out changed nothing;
                                           with --cut, it goes on as above
  N findings, stopped at record R: REASON  nobody knows what the request of this reply changed, or to which request
                                           a reply belongs, or a request has no reply
  N findings, stopped: REASON              there are as many as --most says, or the transcript cannot be read on

A wrong reply changed nothing if its request only looks, if it says that the request was refused, if it ends a CLOSE, if
it gives a handle for an OPENDIR or for an OPEN without CREAT and TRUNC, or if no request has its id. What hangs on it
is left out, too, and counts as not judged: all requests through a handle that it gives, and the READDIRs after a wrong
READDIR, until a reply gives the handle anew. Nobody knows what these changed: a WRITE through such a handle may have
made a later reply right that is found wrong, or wrong that is not. Records have the numbers that they have in the
transcript, which is read again for each finding, so it cannot be a pipe. A session with a finding is refused: the
status is 1, and --out writes nothing. Each finding is as if the earlier ones were not there: it may follow from what a
server got wrong before.

With several transcripts, by FILE... or --transcripts-from LIST ('-' is standard input), each is judged by itself from
the tree, which is read once. Each has a line that begins with its name, in the order given:

  one.transcript: accepted 812 requests
  two.transcript: refused record 11: NotAllowed
  cut.transcript: malformed: record 3: Truncated
  none.transcript: cannot be read: No such file or directory (os error 2)

The status is the worst of all. --json prints an object for each, --progress how many are done; --out, --keep-going and
--tree unknown are for one transcript alone, and --explain needs --json.

With --together, the sessions of all FILEs, which overlapped on one tree, are judged by one order of all their requests.
Of each session there is a file NAME.transcript and a file NAME.times, and the order has just these names. It prints
'accepted N requests in M sessions'; or 'refused: TRANSCRIPT record N: KIND at place P of the order: WHY', where KIND
may also be:

  NothingLeft   the session that has this place has no request left
  Clock         the request had its reply, more than the tolerance, before a request at an earlier place was asked
  LeftOut       the order has no place for the request

All times are on the clock of one boot, or all are dates. That it is refused says nothing of other orders.

With --json, standard output has one JSON object in every case: the verdict with the parts of the explanation, or the
failure; with --keep-going one for each finding, and one for the last line. The statuses are the same.

With --memory, a tree file of more than BYTES is not read, and the audit ends with status 3 once the process has more
than BYTES. That is looked at as the transcript is read; one request may take as much as a file or a listing has before
that. With '--tree unknown' it says how many bytes the transcript and the files of the session may have together, as
with 'infer'.";
