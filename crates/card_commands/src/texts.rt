// The texts of `help`.

/// What the program is, and its commands.
pub(crate) const OVERVIEW: &str =
    "cardtool answers questions about SD cards and eMMC devices, and serves requests on a card in memory.

    cardtool                 a demonstration: one sector written to a card of four and read back
    cardtool serve ..        serves a script of requests on the card of a card file
    cardtool new ..          prints a card file
    cardtool check ..        says whatever is wrong with a card file, a script and an image
    cardtool decode ..       prints the fields of a register or a frame, or a trace in words
    cardtool nbd ..          serves a card as a network block device on standard input and output
    cardtool help [COMMAND]  this text, or that of a command
    cardtool version         the version

Status: 0 where all went well, 2 where words or files are refused, or something couldn't be read or written; a line on standard
error says what. `serve` has 1 too, where a request failed or was refused. docs/FORMATS.md has the files.
";

/// That of `serve`.
pub(crate) const SERVE: &str =
    "usage: cardtool serve --card FILE --script FILE [--image FILE] [--trace N]
                      [--explain] [--json] [--vcd FILE] [--labels] [--save FILE] [--force]
                      [--svg FILE] [--html FILE] [--timing FILE] [--exchanges A..B]
                      [--fault RULE].. [--seed N] [--stats]

Serves the requests of a script on the card of a card file, with a line for each submission, cancellation and answer. A file that is
read may be -, for standard input.

    --card FILE    the card file: registers, delays and planned faults
    --script FILE  the script: a request, a cancellation, `turn` or `run` a line
    --image FILE   what the card holds at first, all partitions in order, 512 bytes a sector
    --trace N      shows the last N exchanges with the card after the answers, from 1 to 65536
    --explain      puts words after each exchange that is shown; without --trace it shows the last 65536
    --json         prints JSON in place of all that: an object on a line for each answer, for each exchange that is shown, with its
                   words, and for what happened
    --vcd FILE     writes the exchanges as a waveform of CLK, CMD and DAT0 to DAT7; FILE must not be there yet. With - it goes to
                   standard output, and the answers to standard error
    --labels       gives the waveform two texts that GTKWave shows: EXCHANGE, the number of the exchange, and PHASE, what it is: a
                   command as CMD17, READ or WRITE for a block, or BUSY for a poll
    --save FILE    writes what the card holds at the end, as an image has it; FILE must not be there yet
    --force        replaces the files that are written where they are there
    --svg FILE     draws the last 64 exchanges as a sequence diagram in SVG, with words, planned faults, and what the driver does to
                   settle the card; FILE must not be there yet, nor in the next two
    --html FILE    writes a page with the answers, that diagram, the exchanges in words, what happened, and what the card holds
    --timing FILE  draws the last 16 exchanges as a timing diagram of CMD and DAT in SVG
    --exchanges A..B
                   draws exchanges A to B in their place, counted from 0
    --fault RULE   plans faults by a rule as the exchanges come; it may stand more than once, and the first rule that is about an
                   exchange counts:
                       N FAULT           in exchange N, counted from 0
                       from N FAULT      in each exchange from N on
                       cmd C FAULT       in each CMD C, and with cmd C K FAULT in the K-th, counted from 1
                       read S FAULT      in each block of sector S that is read, and with read S-T FAULT of S to T
                       write S FAULT     in each block that is written, likewise
                       random A/B FAULT  in A of B exchanges, by chance
                   FAULT is as in a card file, lose-reply or bad-block for instance; any: one that is of such an exchange, by
                   chance; or gone: nothing comes from the card
    --seed N       other chances; 0 where it is left out
    --stats        says at the end on standard error what happened: exchanges, faults that fell, attempts, settlings, resets

Status: 0 where every request was served, 1 where one failed or was refused, 2 where nothing was served or the output failed.

    cardtool serve --card examples/sdsc.card --script examples/first.script --trace 6 --explain
    cardtool serve --card examples/sdsc.card --script examples/first.script --fault 'cmd 13 3 lose-reply' --explain
    cardtool serve --card examples/lost-status.card --script examples/lost-status.script --html lost-status.html
";

/// That of `new`.
pub(crate) const NEW: &str =
    "usage: cardtool new --kind sd|mmc --sectors N [--lines 1|4|8] [--highspeed] [--cmd23] [--boot N] [--gp N] [--readonly]

Prints a card file whose registers and checks fit, or says which sizes are next to N.

    --kind KIND    sd: an SD card; mmc: an eMMC device
    --sectors N    the size of the user partition in sectors of 512 bytes
    --lines N      how many data lines the card has: of an SD card 1 or 4, and 4 where it is left out; of an eMMC device always
                   1, 4 and 8
    --highspeed    it switches to high speed
    --cmd23        an SD card knows CMD23, SET_BLOCK_COUNT; an eMMC device always does
    --boot N       each boot partition of an eMMC device has N sectors, a multiple of 256
    --gp N         the first general purpose partition of an eMMC device has N sectors, a multiple of 1024
    --readonly     the card is write protected for now

Status: 0, or 2 where no card is like that.

    cardtool new --kind sd --sectors 2048 > my.card
";

/// That of `check`.
pub(crate) const CHECK: &str = "usage: cardtool check --card FILE [--script FILE] [--image FILE]

Says whatever is wrong with a card file, a script and an image: each bad line with its number, what was found, and what was
expected; which register contradicts which; and why a card isn't opened, with the answer of serve. Notes after that, which don't
change the status, name the requests that will be refused, planned faults that can't fall, and a card that only nbd serves. A file
may be -, for standard input.

    --card FILE    the card file
    --script FILE  the script
    --image FILE   the image

Status: 0 where nothing is wrong, otherwise 2.

    cardtool check --card examples/sdsc.card --script examples/first.script
";

/// That of `decode`.
pub(crate) const DECODE: &str =
    "usage: cardtool decode REGISTER [HEX] [--kind sd|mmc] [--addresses bytes|sectors] [--json]

Prints the fields of a register or a frame, a line each: name, bits, value, and what it means. Without HEX the digits are read
from standard input. Of a trace it prints the lines with words after them.

    REGISTER       ocr, cid, csd, scr, ext_csd, status (the card status), switch (the 64 bytes after CMD6), frame (the 6 bytes
                   of a command or a response, or the 17 of an R2), or trace (the exchanges of `serve --trace`)
    HEX            its hexadecimal digits, the first byte first, with or without 0x in front; in quotes with spaces between; an OCR
                   or a card status with 0x may leave leading zeros out; a CID or CSD may lack its last byte, or have 00 there, as
                   Linux shows them, or come as the 34 digits of an R2; for a trace its lines
    --kind KIND    sd where it is left out, or mmc; scr and switch are of SD cards, ext_csd of eMMC devices
    --addresses A  bytes where it is left out, or sectors: how the commands of a trace count, up to an OCR in it that says so
    --json         prints JSON: an object on a line for each field, with its name, bits, value and meaning; of a trace for each
                   exchange

Status: 0, or 2 where the digits aren't those of such a register.

    cardtool decode csd 0000000000090000000040000240009b
    cat /sys/block/mmcblk0/device/cid | cardtool decode cid --kind mmc
    cardtool decode status 0x900
    cardtool decode frame 510000000055
    cardtool serve --card examples/sdsc.card --script examples/first.script --trace 99 | cardtool decode trace
";

/// That of `nbd`.
pub(crate) const NBD: &str =
    "usage: cardtool nbd --card FILE [--image FILE] [--save FILE] [--force] [--part PART] [--fault RULE].. [--seed N] [--stats]

Serves the card of a card file as a network block device (NBD, fixed newstyle) on standard input and output, with the faults that
the card file and rules plan. Exports are the partitions that the card has, by their names. A client starts it (libnbd's connect_command), or socat
gives it a socket.

    --card FILE    the card file: registers, delays and planned faults; up to 4194304 sectors, which are 2 GiB
    --image FILE   what the card holds at first, all partitions in order, 512 bytes a sector
    --save FILE    writes what the card holds at the end, of all partitions in order; FILE must not be there yet
    --force        replaces it at the end where it is there
    --part PART    the partition that goes by the empty name, user where it is left out: user, boot1, boot2, gp1, gp2, gp3 or
                   gp4; it is saved alone
    --fault RULE   plans faults by a rule as the exchanges come: cardtool help serve says which there are
    --seed N       other chances; 0 where it is left out
    --stats        says at the end on standard error what happened: exchanges, faults that fell, attempts, settlings, resets

Status: 0 where the client or the end of the input ended the session, 2 where something was refused, or couldn't be read or
written. The card is saved in each case once it was opened.

    socat UNIX-LISTEN:card.sock EXEC:'cardtool nbd --card examples/sdsc.card --save after.img',nofork
    socat UNIX-LISTEN:card.sock EXEC:'cardtool nbd --card examples/sdsc.card --fault \\\"random 1/200 any\\\" --stats',nofork
";

/// That of `help`.
pub(crate) const HELP: &str = "usage: cardtool help [serve|new|check|decode|nbd|help|version]
";

/// That of `version`.
pub(crate) const VERSION: &str = "usage: cardtool version
";
