//! What the help says of the program and of its commands.

pub(crate) static VERSION: &str = "0.9";

pub(crate) static ABOUT: &str =
    "Changes how a JPEG 2000 codestream is packed, and no coefficient of it.";

pub(crate) static MORE: &str = "\
One line on standard output says how it went, a sentence on standard error
why it was refused. jx transcode --help says all options, with examples.";

pub(crate) static TRANSCODE: &str =
    "Writes a codestream packed anew: order, layers, precincts, style";

pub(crate) static EXAMPLES: &str = "\
Examples:
  jx transcode in.j2k out.j2k --order rpcl --plt --tile-parts r
  jx transcode in.j2k out.j2k --layers planes:2
  jx transcode in.j2k out.j2k --style terminate+reset --threads 4

The picture is the same in each: no coefficient changes. IN may be a JP2 file:
OUT is one then too (but with --form j2k), and all its other boxes stay byte
for byte. Boxes that hold positions in the file (fragment tables, indexes)
may then be wrong.
docs/user/statuses.md has all rules and limits.";

pub(crate) static MAKE: &str = "Makes a test picture in memory, transcodes it and says one line";

pub(crate) static CHECK: &str = "\
It shows whether an installation works: no file is read or written, and the
line is the same on every machine.

Example:
  jx make 5 1 1
says
  make: 3 blocks, 1101 bytes in, 293 bytes out, sum 14543
which are the picture's code-blocks, the bytes before and after, and the sum
of those after. jx make 1 2048 1536 takes longer, and shows how fast it is.";

pub(crate) static BOXES: &str = "Lists the boxes of a JP2 file";

pub(crate) static TREE: &str = "\
One line for each box in their order: its type, the byte where it begins and
its length with its head, and before them two spaces for each box in which it
stands. Opened are jp2h, res in it, and uinf. A type that isn't four characters
from the space to ~ is shown as eight hexadecimal digits.

Example:
  jx boxes picture.jp2
says
  jP   0 12
  ftyp 12 20
  jp2h 32 45
    ihdr 40 22
    colr 62 15
  jp2c 77 3855";

pub(crate) static SAME: &str = "Says whether two files have the same coefficients";

pub(crate) static MEANING: &str = "\
The line is same, or differs with the first value that does: its name, the
tile, the component, the resolution, the band, the column and the row. Values
are the picture's size and tiles, each component's depth and subsampling, its
levels, wavelet, component transform and quantization, the steps of its bands,
and each coefficient's sign, bits and decoded bit-planes; order, layers,
precincts, styles and the sizes of code-blocks don't count. But where one file
has a code-block that no packet includes, other sizes can make a difference.
What is said doesn't depend on the threads.

Example:
  jx transcode in.j2k out.j2k --order rpcl --style terminate
  jx same in.j2k out.j2k
says
  same";

pub(crate) static SHOW: &str = "Says what the codestream of a file is";

pub(crate) static FACTS: &str = "\
A line for each fact: its name, a colon and its value. First whether the file
is a codestream or a JP2 file, its brand and the names of its boxes; then the
picture, its tiles and components; what the main header says; packets,
code-blocks, tile-parts, comments and the bytes of the code-blocks, and whether
PLT, PLM, PPM, PPT and TLM stand; then what each tile says itself. For a tile
and a component the most specific line holds: that of both, else of the tile,
else of the component, else of neither. Lines of progression hold together, in
place of the order.

With --json the same facts are the members of one object, under the same
names. Two numbers are a list, yes is true, no is false.

Example:
  jx show picture.j2k";
