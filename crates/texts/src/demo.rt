// One exchange of each kind, the two halves against each other: a script of the bench's own commands, with the tag, the
// keys, the draws and the challenges of Annex F, so that a trainee finds many of the bytes in its tables. What it
// prints is examples/demo.out.

/// The script, a command or a comment a line.
pub const SCRIPT: &str = "\
# The tag of Annex F: every feature, an identity area of 9 words, the keys 0 and 1, profile 1 over \
the whole area.\n\
sheet 013f0f02000900000300010002000102030405060708090a0b0c0d0e0f2b7e151628aed2a6abf7158809cf4f3c0301\
0100070a1b2c3d4e5f6a7b8c9d0e1f2ab3c4d5889900aabbccddeeffaabbccddeeff000401000000000906\n\
area 0 a16a76656e69617a5265676e756d5475756d\n\
\n\
# TAM1: has the tag key 0? Behind a message stand the tag's random bytes (Table F.4).\n\
keys 000102030405060708090a0b0c0d0e0f 2b7e151628aed2a6abf7158809cf4f3c\n\
build tam1 0 96564402375796c69664\n\
message 000096564402375796c69664 6d696372000000000000\n\
judge 000096564402375796c69664 e920530cc781b20cfe1ab4a0144e7335\n\
# The reader's own challenge came back under the key: the tag has key 0.\n\
\n\
# TAM2: two 64-bit blocks of profile 1, encrypted and with a MAC (ProtMode 3, Table F.16).\n\
build tam2 0 1 0 96564402375796c69664 1 0 1 3\n\
message 280096564402375796c69664100013 72666964000000000000\n\
judge 280096564402375796c69664100013 67039773f2c3c8e8b1d29254badef7c9b86966552dee705111d4c077009d777\
c6d725bcd8dc8fa5c83960148241958c2e3546dea93f24ee9b9799a43\n\
# The tag has key 0, and the MAC proves that these are its words.\n\
\n\
# IAM: the reader shows that it has key 1, and writes a 64-bit block at Offset 1. A step is four wor\
ds: words 4 to 7.\n\
keys 0a1b2c3d4e5f6a7b8c9d0e1f2ab3c4d5 889900aabbccddeeffaabbccddeeff00\n\
build iam1 1\n\
message 4001 9786cafe01bb65dc2300\n\
judge 4001 9786cafe01bb65dc2300\n\
# A challenge, which proves nothing yet. The reader answers it by AES-DEC, with the block and a MAC.\n\
build iam3 0 1 1 0 3 0 8852be01 9786cafe01bb65dc2300 524f55414c494e54\n\
message 581001035d3f017b042e02228d26c90dbdb513da2ee0ceef56f8ef8eb15ea4acd84d20ef45be418b8bec7613e7ce\
af10\n\
judge 581001035d3f017b042e02228d26c90dbdb513da2ee0ceef56f8ef8eb15ea4acd84d20ef45be418b8bec7613e7ceaf\
10 -\n\
# The tag found its own challenge under the key, and let the reader in. That it is done no key prove\
s.\n\
areas\n\
\n\
# MAM: each half shows the other that it has key 1 (Tables F.32 and F.33).\n\
build mam1 1 96564402375796c69664\n\
message 800196564402375796c69664 566f6e20427261756e20\n\
judge 800196564402375796c69664 47d77088e9143699215c9d162d8a310a566f6e204272\n\
build mam2 0 96564402375796c69664 566f6e20427261756e20\n\
message 90f537798c9e30cf1999e3c52a7994bd93\n\
judge 90f537798c9e30cf1999e3c52a7994bd93 -\n\
# Both challenges came back under the key: each half has it.\n";
