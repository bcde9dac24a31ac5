//! The help texts of the commands, each with an example that can be tried.

/// The description of a command.
#[derive(Clone, Copy)]
pub struct CommandHelp {
    /// The word on the command line.
    pub name: &'static str,
    /// What it does, in one line.
    pub about: &'static str,
    /// What help says of the addresses after the file, if it takes any.
    pub addresses: Option<&'static str>,
    /// The names of its options, but for those that all commands have.
    pub options: &'static [&'static str],
    /// What it prints, and an example.
    pub more: &'static str,
}

/// What help says of the file.
pub const FILE: &str = "The dump: an ELF core, a LiME file, or a raw file of physical memory";

/// Returns the descriptions of the commands, in the order of the help text.
pub fn commands() -> [CommandHelp; 8] {
    [
        regions(),
        pages(),
        walk(),
        find(),
        check(),
        image(),
        picture(),
        info(),
    ]
}

/// Returns the help text of the program after the list of commands.
pub fn more() -> &'static str {
    "\
FILE is a dump of an x86-64 machine's physical memory, or - for standard input:
- an ELF core, as QEMU's `dump-guest-memory FILE` and Linux's kdump write it,
- a LiME file of version 1, which has ranges of memory behind headers,
- or a raw file, which holds the bytes of memory from an address on, as QEMU's
  `pmemsave` writes it. Say by --base which address that is, if it isn't 0.
  If memory has a hole, say by --range OFFSET:ADDRESS:SIZE, for each part, from
  which byte of the file it is, where it lies and how many bytes it has. So 4GiB
  with a hole from 3GiB to 4GiB are
  --range 0:0:0xc0000000 --range 0xc0000000:0x100000000:0x40000000

A file is raw if its first bytes are those of no format, or with --raw, and
standard error says so. Known and refused are compressed kdumps, makedumpfile's
flattened dumps, AVML's compressed files, crash dumps and hibernation files of
Windows, states of machines that VMware, VirtualBox, QEMU and libvirt save, and
what gzip, xz, zstd, lz4, bzip2 and zip have packed.

Page tables are found by CR3. QEMU's cores have it, and how many levels there
are. In kdump's cores Linux's note VMCOREINFO says where the kernel's own root
is. Other files are searched for its text, which Linux has in memory: if several
differ, choose by --vmcoreinfo. If there is none, give --cr3, 0x and the digits
that `info registers` in QEMU's monitor prints, and --levels (bit 12 of CR4 set
means five levels).

Numbers are decimal without zeros in front, or hexadecimal after 0x. Rights are
four letters, or - for each one that is missing: r may be read, w written, x
executed, u by user code.
The last line, on standard error, counts tables and mappings, and says how much
is mapped, rounded down.

The exit status is 0 if all went well, 1 if there are findings or an address
isn't found, 2 for mistakes in the command line, 3 for a file that can't be
read, 4 for want of memory, 5 if the output can't be written.

Example, of a dump that the source of ptdump has in the folder examples:

  $ ptdump regions machine.elf --cpu 0
  0x0-0x1fffff 2MiB rwx-
  0x400000-0x402fff 12KiB r-xu
  0x403000-0x403fff 4KiB r--u
  0x405000-0x406fff 8KiB rw-u
  0x10000000-0x103fffff 4MiB rw-u
  0x7fffffffc000-0x7fffffffdfff 8KiB rw-u
  0xffff800000000000-0xffff80003fffffff 1GiB rw--
  0xffffffff80000000-0xffffffff80000fff 4KiB r-x-
  0xffffffff80001000-0xffffffff80002fff 8KiB r---
  0xffffffff80003000-0xffffffff80004fff 8KiB rw--
  0xffffffffff600000-0xffffffffff600fff 4KiB r-xu
  tables 13, mappings 18, mapped 1.0GiB

`ptdump COMMAND --help` has an example of each command."
}

/// Returns the description of `regions`.
fn regions() -> CommandHelp {
    CommandHelp {
        name: "regions",
        about: "List what is mapped, region by region",
        addresses: None,
        options: &[
            "from", "to", "rights", "columns", "linux", "all-cpus", "json",
        ],
        more: "\
A region is as long as addresses go on without a gap and with the same rights.
Each line is FIRST-LAST SIZE RIGHTS: its first and last address, how long it is,
and what may be done there: r read, w write, x execute, u by user code.

On a terminal the columns are aligned, each as wide as any text in it can be,
and a line is FIRST - LAST SIZE RIGHTS. Elsewhere a space is between columns.
--columns aligned and --columns plain say which of these it is.

If VMCOREINFO says where the root is, or with --linux, a last column behind two
spaces names the area of Linux's address space in which the whole region lies:
user, LDT remap, direct map, vmalloc, vmemmap, cpu entry area, ESP fixup, EFI,
kernel text, modules, kernel text or modules, fixmap or vsyscall. The bases of
the third to the fifth, and where modules begin, are known from VMCOREINFO alone,
and memory isn't searched for it for this. Nothing is there if no area is known.

--from and --to list only regions that reach into these addresses, the last one
included, as they are; --rights only those with at least these of the letters
r, w, x and u. The last line counts all that is mapped. Words with reserved bits
are counted on standard error.

--all-cpus lists the regions of each processor in QEMU's notes, and those of
several with the same root once, below a line with their numbers and the root.
Standard error says which ones are left out, as they have no 64-bit paging, and
counts the tables and mappings of each root.

With --json a line is an object with first and last (strings in hexadecimal),
bytes (a number), the rights write, execute and user (true or false), and area
(a string) if it is named. With --all-cpus the line of a root is an object with
cpus (an array of numbers) and root (a string in hexadecimal).

Examples:

  $ ptdump regions machine.elf --all-cpus --rights wx
  cpu 0 root 0x101000
  0x0-0x1fffff 2MiB rwx-
  tables 13, mappings 18, mapped 1.0GiB
  $ ptdump regions machine.elf --from 0x402000 --to 0x405000
  0x400000-0x402fff 12KiB r-xu
  0x403000-0x403fff 4KiB r--u
  0x405000-0x406fff 8KiB rw-u
  tables 13, mappings 18, mapped 1.0GiB
  $ ptdump regions machine.elf --columns aligned --from 0x405000
  0x405000           - 0x406fff                        8KiB rw-u
  0x10000000         - 0x103fffff                      4MiB rw-u
  0x7fffffffc000     - 0x7fffffffdfff                  8KiB rw-u
  0xffff800000000000 - 0xffff80003fffffff              1GiB rw--
  0xffffffff80000000 - 0xffffffff80000fff              4KiB r-x-
  0xffffffff80001000 - 0xffffffff80002fff              8KiB r---
  0xffffffff80003000 - 0xffffffff80004fff              8KiB rw--
  0xffffffffff600000 - 0xffffffffff600fff              4KiB r-xu
  tables 13, mappings 18, mapped 1.0GiB
  $ ptdump regions machine.elf --linux --from 0x7fffffffc000
  0x7fffffffc000-0x7fffffffdfff 8KiB rw-u  user
  0xffff800000000000-0xffff80003fffffff 1GiB rw--
  0xffffffff80000000-0xffffffff80000fff 4KiB r-x-  kernel text or modules
  0xffffffff80001000-0xffffffff80002fff 8KiB r---  kernel text or modules
  0xffffffff80003000-0xffffffff80004fff 8KiB rw--  kernel text or modules
  0xffffffffff600000-0xffffffffff600fff 4KiB r-xu  vsyscall
  tables 13, mappings 18, mapped 1.0GiB
  $ ptdump regions machine.elf
  0x0-0x1fffff 2MiB rwx-
  0x400000-0x402fff 12KiB r-xu
  0x403000-0x403fff 4KiB r--u
  0x405000-0x406fff 8KiB rw-u
  0x10000000-0x103fffff 4MiB rw-u
  0x7fffffffc000-0x7fffffffdfff 8KiB rw-u
  0xffff800000000000-0xffff80003fffffff 1GiB rw--
  0xffffffff80000000-0xffffffff80000fff 4KiB r-x-
  0xffffffff80001000-0xffffffff80002fff 8KiB r---
  0xffffffff80003000-0xffffffff80004fff 8KiB rw--
  0xffffffffff600000-0xffffffffff600fff 4KiB r-xu
  tables 13, mappings 18, mapped 1.0GiB",
    }
}

/// Returns the description of `pages`.
fn pages() -> CommandHelp {
    CommandHelp {
        name: "pages",
        about: "List all mappings, page by page",
        addresses: None,
        options: &["from", "to", "rights", "names", "columns", "linux", "json"],
        more: "\
Each line is START SIZE FRAME RIGHTS FLAGS: the page's first address, its size,
the physical address to which it leads, what may be done there (r read, w write,
x execute, u by user code; what all entries on the way allow), and the flags of
the page's own entry, bits 0 to 11 and 52 to 63.

On a terminal the columns are aligned, each as wide as any text in it can be.
Elsewhere a space is between columns. --columns aligned and --columns plain say
which of these it is.

If VMCOREINFO says where the root is, or with --linux, a last column behind two
spaces names the area of Linux's address space in which the page lies, as
`ptdump regions --help` says.

--from and --to list only pages that reach into these addresses, the last one
included; --rights only those with at least these of the letters r, w, x and u.
Words with reserved bits are counted on standard error.

--names adds the names of the flags that are set: P (present), W (writable), U
(user), A (accessed), D (dirty), G (global), PS (large page), NX (no execute),
PWT, PCD and PAT (kind of memory), KEY=5 (protection key, if it isn't 0), and
SW=0x200 (the bits 9 to 11 and 52 to 58, which are software's). PAT is shown for
4KiB pages alone, since bit 12, where larger ones have it, isn't in this list.

With --json a line is an object with start, frame and flags (strings in
hexadecimal), bytes (a number), write, execute and user (true or false), and
area (a string) if it is named.

Examples:

  $ ptdump pages machine.elf --names --from 0x405000 --to 0x10000000
  0x405000 4KiB 0x204000 rw-u 0x8000000000000067 P,W,U,A,D,NX
  0x406000 4KiB 0x207000 rw-u 0x8000000000000007 P,W,U,NX
  0x10000000 2MiB 0x400000 rw-u 0x8000000000000087 P,W,U,PS,NX
  tables 13, mappings 18, mapped 1.0GiB
  $ ptdump pages machine.elf --columns aligned --from 0x405000 --to 0x10200000
  0x405000           4KiB 0x204000        rw-u 0x8000000000000067
  0x406000           4KiB 0x207000        rw-u 0x8000000000000007
  0x10000000         2MiB 0x400000        rw-u 0x8000000000000087
  0x10200000         2MiB 0x600000        rw-u 0x8000000000000087
  tables 13, mappings 18, mapped 1.0GiB
  $ ptdump pages machine.elf --from 0x402fff --to 0x10200000 --rights wu
  0x405000 4KiB 0x204000 rw-u 0x8000000000000067
  0x406000 4KiB 0x207000 rw-u 0x8000000000000007
  0x10000000 2MiB 0x400000 rw-u 0x8000000000000087
  0x10200000 2MiB 0x600000 rw-u 0x8000000000000087
  tables 13, mappings 18, mapped 1.0GiB
  $ ptdump pages machine.elf
  0x0 2MiB 0x0 rwx- 0xa3
  0x400000 4KiB 0x200000 r-xu 0x5
  0x401000 4KiB 0x201000 r-xu 0x5
  0x402000 4KiB 0x202000 r-xu 0x5
  0x403000 4KiB 0x203000 r--u 0x8000000000000005
  0x405000 4KiB 0x204000 rw-u 0x8000000000000067
  0x406000 4KiB 0x207000 rw-u 0x8000000000000007
  0x10000000 2MiB 0x400000 rw-u 0x8000000000000087
  0x10200000 2MiB 0x600000 rw-u 0x8000000000000087
  0x7fffffffc000 4KiB 0x20a000 rw-u 0x8000000000000007
  0x7fffffffd000 4KiB 0x209000 rw-u 0x8000000000000067
  0xffff800000000000 1GiB 0x0 rw-- 0x8000000000000183
  0xffffffff80000000 4KiB 0x100000 r-x- 0x121
  0xffffffff80001000 4KiB 0x220000 r--- 0x8000000000000101
  0xffffffff80002000 4KiB 0x221000 r--- 0x8000000000000101
  0xffffffff80003000 4KiB 0x222000 rw-- 0x8000000000000163
  0xffffffff80004000 4KiB 0x223000 rw-- 0x8000000000000103
  0xffffffffff600000 4KiB 0x226000 r-xu 0x105
  tables 13, mappings 18, mapped 1.0GiB",
    }
}

/// Returns the description of `walk`.
fn walk() -> CommandHelp {
    CommandHelp {
        name: "walk",
        about: "Show how the processor finds an address, word by word",
        addresses: Some("The addresses to walk to"),
        options: &["explain", "as", "controls", "maxphyaddr", "json"],
        more: "\
For each address a line for each word that is read on the way,
level L 0xTABLE[INDEX] 0xWORD, and then the physical address with what may be
done there (r read, w write, x execute, u by user code), or why there is none.
If there are several addresses, a line above says which one it is.
A word that is present and has a reserved bit has one more line, since a
processor faults there. Reserved are address bits from --maxphyaddr on, those
below the address of a large page, and HUGE_PAGE at a level without pages.

--explain adds the size of the page, and a line for each right (write, user or
execute) that a word takes away, if the walk arrives.

With --as a further line says what a processor does with such an access: it
arrives at a physical address, or faults at a word, of which the level is shown
with the error code and its bits, or needs a table that the dump lacks. ACCESS
is user-read, user-write, user-fetch, supervisor-read, supervisor-write or
supervisor-fetch. LIST names the settings of the processor that are on, with
commas between, or is none: wp (CR0.WP), nxe (EFER.NXE), smep (CR4.SMEP), smap
(CR4.SMAP), ac (EFLAGS.AC). Without --controls wp, smep and smap are as QEMU's
note of the processor (the first, or that of --cpu) says, if it is in 64-bit
paging, and nxe, which no note says, is on; without a note all but ac are on.
The line ends with the settings, + for on and - for off, and how they are known:
given, noted or assumed. The exit status is 1 if an access doesn't arrive.

With --json a line is the object of an address. Its words have level, index
(numbers), table and word (strings in hexadecimal, as all addresses). Its end is
\"arrives\", with physical, write, execute and user, or \"not present\", or \"missing
table\", with table, or \"huge page\", with level. With --as its access is an
object with name and end: \"arrives\", with physical, \"fault\", with level and
code, or \"missing table\", with table; and with controls: wp, nxe, smep, smap and
ac (true or false), and source, \"given\", \"noted\" or \"assumed\".

Examples:

  $ ptdump walk machine.elf 0x401123 --explain --as user-write
  level 4 0x101000[0] 0x102027
  level 3 0x102000[0] 0x103027
  level 2 0x103000[2] 0x104027
  level 1 0x104000[1] 0x201005
  0x201123 r-xu
  page of 4KiB
  level 1 0x104000[1] has no write
  user-write faults at level 1, code 0x7, present, write, user (noted: +wp -smep -smap, assumed: +nxe -ac)
  tables 13, mappings 18, mapped 1.0GiB
  $ ptdump walk machine.elf 0x405123 0x404000
  address 0x405123
  level 4 0x101000[0] 0x102027
  level 3 0x102000[0] 0x103027
  level 2 0x103000[2] 0x104027
  level 1 0x104000[5] 0x8000000000204067
  0x204123 rw-u
  address 0x404000
  level 4 0x101000[0] 0x102027
  level 3 0x102000[0] 0x103027
  level 2 0x103000[2] 0x104027
  level 1 0x104000[4] 0x5a0000
  not present
  tables 13, mappings 18, mapped 1.0GiB",
    }
}

/// Returns the description of `find`.
fn find() -> CommandHelp {
    CommandHelp {
        name: "find",
        about: "Find the addresses that lead to a physical address",
        addresses: Some("The physical addresses to look for"),
        options: &["json"],
        more: "\
For each physical address a line for each address that leads to it, with what
may be done there: r read, w write, x execute, u by user code. If there are
several physical addresses, a line above says which one it is, and a line says
if none leads to it. The exit status is 1 if that is so of any.

With --json a line is an object with physical and address (strings in
hexadecimal), and the rights write, execute and user (true or false).

Examples:

  $ ptdump find machine.elf 0x204123
  0x405123 rw-u
  0xffff800000204123 rw--
  tables 13, mappings 18, mapped 1.0GiB
  $ ptdump find machine.elf 0x204123 0x7fffffff000
  physical 0x204123
  0x405123 rw-u
  0xffff800000204123 rw--
  physical 0x7fffffff000
  not found
  tables 13, mappings 18, mapped 1.0GiB
  $ ptdump find machine.elf 0x204123 --json
  {\"address\":\"0x405123\",\"execute\":false,\"physical\":\"0x204123\",\"user\":true,\"write\":true}
  {\"address\":\"0xffff800000204123\",\"execute\":false,\"physical\":\"0x204123\",\"user\":false,\"write\":true}
  tables 13, mappings 18, mapped 1.0GiB",
    }
}

/// Returns the description of `check`.
fn check() -> CommandHelp {
    CommandHelp {
        name: "check",
        about: "Find what is seldom meant, as memory that may be written and executed",
        addresses: None,
        options: &[
            "from",
            "to",
            "maxphyaddr",
            "direct-map",
            "aliases",
            "all-cpus",
            "json",
        ],
        more: "\
Findings are: regions that may be written and executed, regions of the upper
half that user code reaches, tables that several words name, tables that aren't
in the dump, HUGE_PAGE at a level that has no pages, other reserved bits, and
tables that user code reaches. Other reserved bits are address bits that the
processor lacks, which are those from --maxphyaddr on, and low address bits of
large pages. For a table there is the first address at which user code can write
to it, or if it can't, read it. The exit status is 1 if there are any.

--direct-map FIRST:LAST says where the kernel maps all of physical memory: both
addresses are included. Then a table to which a writable mapping leads that
doesn't lie there wholly is a finding too, with the first such address.

--all-cpus checks the tables of each processor in QEMU's notes, and those of
several with the same root once, below a line with their numbers and the root.

--from and --to look only at regions that reach into these addresses, the last
one included. Findings in tables are listed wherever the tables lead.

--aliases also finds memory that is mapped twice with different rights. Of the
pages with the same frame, size and rights it looks at the first. For that one
it names the first other page with this memory which is larger, or is as large
and has a lower address. Linux maps all memory once more in the upper half, so
there nearly all memory of user code is found.

With --json a line is an object whose finding is \"writable and executable\" or
\"user reaches upper half\", with what regions --json tells of the region, \"table
named often\", with table and times, \"table not in the dump\", with table and
named_by, which has table and index, \"HUGE_PAGE above level three\" or \"reserved
bits\", with table, index and level, and for the latter word, or \"table mapped
writable for user\", \"table mapped for user\" or \"table mapped writable outside
the direct map\", with table and at, the address, or \"frame mapped with different
rights\", with frame, at, write, execute and user, and other_at, other_write,
other_execute and other_user. The last line is an object with findings, their
number.

Examples:

  $ ptdump check machine.elf
  writable and executable 0x0-0x1fffff 2MiB rwx-
  user reaches upper half 0xffffffffff600000-0xffffffffff600fff 4KiB r-xu
  findings: 2
  tables 13, mappings 18, mapped 1.0GiB
  $ ptdump check machine.elf --json
  {\"bytes\":2097152,\"execute\":true,\"finding\":\"writable and executable\",\"first\":\"0x0\",\"last\":\"0x1fffff\",\"user\":false,\"write\":true}
  {\"bytes\":4096,\"execute\":true,\"finding\":\"user reaches upper half\",\"first\":\"0xffffffffff600000\",\"last\":\"0xffffffffff600fff\",\"user\":true,\"write\":false}
  {\"findings\":2}
  tables 13, mappings 18, mapped 1.0GiB",
    }
}

/// Returns the description of `image`.
fn image() -> CommandHelp {
    CommandHelp {
        name: "image",
        about: "Write the tables as an image that pagetab reads",
        addresses: None,
        options: &[],
        more: "\
pagetab maps, unmaps and translates pages on an image of page tables. Tables get
new addresses, from 0x1000 on. Standard error says which, which words were left
out, how pagetab is called, and why it would refuse the image.

Example:

  $ ptdump image machine.elf > image.txt
  new         old               level
  0x1000      0x101000          4
  0x2000      0x102000          3
  0x3000      0x105000          3
  0x4000      0x108000          3
  0x5000      0x109000          3
  0x6000      0x103000          2
  0x7000      0x106000          2
  0x8000      0x10a000          2
  0x9000      0x10c000          2
  0xa000      0x104000          1
  0xb000      0x107000          1
  0xc000      0x10b000          1
  0xd000      0x10d000          1
  words without PRESENT above level one, left out: 0
  places: 14
  run: ./pagetab direct 14 < IMAGE
  tables 13, mappings 18, mapped 1.0GiB
  $ echo walk 0x405123 | cat image.txt - | pagetab direct 14
  0x204123 write=1 user=1",
    }
}

/// Returns the description of `picture`.
fn picture() -> CommandHelp {
    CommandHelp {
        name: "picture",
        about: "Draw the regions and the tables, as an SVG picture",
        addresses: None,
        options: &[],
        more: "\
The picture shows the regions of each half of the addresses, coloured by their
rights, and the tables as a tree. A browser shows it.

Example:

  $ ptdump picture machine.elf > machine.svg
  tables 13, mappings 18, mapped 1.0GiB",
    }
}

/// Returns the description of `info`.
fn info() -> CommandHelp {
    CommandHelp {
        name: "info",
        about: "Tell what the dump says of its machine, and which root is taken",
        addresses: None,
        options: &["json"],
        more: "\
The lines are: the format of the file, the ranges of physical memory with their
sizes, the control registers of each processor with its mode of paging, what
VMCOREINFO says of the kernel, and the root with which the other commands begin
if they have the same options, or why they find none. No tables are read.

With --json a line is an object with one member: format, a string, or an object:
memory (first, last, bytes), processor (cpu, cr0, cr3, cr4, mode, and levels if
paging is 64-bit), kernel (root, levels, encryption_mask), or root (address,
levels, and origin: \"--cr3\", \"kernel\", \"memory\", with offset, or
\"processor\", with cpu). Addresses and registers are strings in hexadecimal. For
what isn't known, error is a string that says why.

Examples:

  $ ptdump info machine.elf
  format: ELF core
  memory 0x100000-0x10dfff 56KiB
  processor 0: CR0 0x80010011, CR3 0x101000, CR4 0x20, 64-bit paging, 4 levels
  root: 0x101000, 4 levels, of processor 0
  $ ptdump info machine.elf --json | tail -n 1
  {\"root\":{\"address\":\"0x101000\",\"cpu\":0,\"levels\":4,\"origin\":\"processor\"}}",
    }
}
