//! The racks that the rows run on.

/// Three threads, each on a blade of its own.
pub const THREE: &str =
    "format = 1\nslots = 4\nprotect = 8\noutliers = 2\nregion = 0\nmost = 9\nthreshold = 0\n[[blade]]\nframes = 2\n[[blade]]\nframes = 2\n[[blade]]\nframes = 2\n[[memory]]\nspare = 4\nhomes = [{ domain = 0, page = 0, pages = 16 }]\n[[memory]]\nspare = 4\nhomes = [{ domain = 0, page = 16, pages = 16 }]\n[[image]]\nname = \"p0.bin\"\nat = 0\n[[image]]\nname = \"p1.bin\"\nat = 0\n[[image]]\nname = \"p2.bin\"\nat = 0\n[[thread]]\nblade = 0\ndomain = 0\nimage = 0\nqueue = 2\n[[thread]]\nblade = 1\ndomain = 0\nimage = 1\nqueue = 2\n[[thread]]\nblade = 2\ndomain = 0\nimage = 2\nqueue = 2\n[[map]]\ndomain = 0\npage = 1\npages = 2\nperm = \"rw\"\n";

/// Four threads, each on a blade of its own.
pub const FOUR: &str =
    "format = 1\nslots = 4\nprotect = 8\noutliers = 2\nregion = 0\nmost = 9\nthreshold = 0\n[[blade]]\nframes = 2\n[[blade]]\nframes = 2\n[[blade]]\nframes = 2\n[[blade]]\nframes = 2\n[[memory]]\nspare = 4\nhomes = [{ domain = 0, page = 0, pages = 16 }]\n[[memory]]\nspare = 4\nhomes = [{ domain = 0, page = 16, pages = 16 }]\n[[image]]\nname = \"p0.bin\"\nat = 0\n[[image]]\nname = \"p1.bin\"\nat = 0\n[[image]]\nname = \"p2.bin\"\nat = 0\n[[image]]\nname = \"p3.bin\"\nat = 0\n[[thread]]\nblade = 0\ndomain = 0\nimage = 0\nqueue = 2\n[[thread]]\nblade = 1\ndomain = 0\nimage = 1\nqueue = 2\n[[thread]]\nblade = 2\ndomain = 0\nimage = 2\nqueue = 2\n[[thread]]\nblade = 3\ndomain = 0\nimage = 3\nqueue = 2\n[[map]]\ndomain = 0\npage = 1\npages = 2\nperm = \"rw\"\n";

/// One thread, and a page that it may only read.
pub const READ_ONLY: &str =
    "format = 1\nslots = 4\nprotect = 8\noutliers = 2\nregion = 0\nmost = 9\nthreshold = 0\n[[blade]]\nframes = 2\n[[memory]]\nspare = 4\nhomes = [{ domain = 0, page = 0, pages = 16 }]\n[[memory]]\nspare = 4\nhomes = [{ domain = 0, page = 16, pages = 16 }]\n[[image]]\nname = \"p0.bin\"\nat = 0\n[[thread]]\nblade = 0\ndomain = 0\nimage = 0\nqueue = 2\n[[map]]\ndomain = 0\npage = 1\npages = 2\nperm = \"rw\"\n[[map]]\ndomain = 0\npage = 3\npages = 1\nperm = \"r\"\n";

/// One thread, and the last page of its domain.
pub const LAST_PAGE: &str =
    "format = 1\nslots = 4\nprotect = 8\noutliers = 2\nregion = 0\nmost = 9\nthreshold = 0\n[[blade]]\nframes = 2\n[[memory]]\nspare = 4\nhomes = [{ domain = 0, page = 0, pages = 16 }]\n[[memory]]\nspare = 4\nhomes = [{ domain = 0, page = 16, pages = 16 }, { domain = 0, page = 1048575, pages = 1 }]\n[[image]]\nname = \"p0.bin\"\nat = 0\n[[thread]]\nblade = 0\ndomain = 0\nimage = 0\nqueue = 2\n[[map]]\ndomain = 0\npage = 1\npages = 2\nperm = \"rw\"\n[[map]]\ndomain = 0\npage = 1048575\npages = 1\nperm = \"rw\"\n";
