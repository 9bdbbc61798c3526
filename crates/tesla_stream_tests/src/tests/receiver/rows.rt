//! The worked examples of two chains, with the answers that another program made.
//!
//! A row has a name, and the setup, the capacity, the quota and the number of ingests of a receiver. A line of it has a call, its
//! answer, and how many packets are held then. A call is a reading with a frame that comes, a take, or the end of an ingest.

/// The rows.
pub const ROWS: &str = "
* last safe microsecond $ SETUP 16 16 1
1369999 BARE_2_0_A = Kept { chains: 3 }, 1
1450000 KEYS_0_2 = Keys, 1
take = 0 2/0 by 0 a, 1
end 0 = Ended, 1
take = Over, 1
* first unsafe microsecond $ SETUP 16 16 1
1370000 BARE_2_0_A = Kept { chains: 2 }, 1
1450000 KEYS_0_2 = Keys, 1
take = Empty, 1
1750000 KEYS_1_2 = Keys, 1
take = 0 2/0 by 1 a, 0
end 0 = Ended, 0
take = Over, 0
* before the start $ SETUP 16 16 1
960000 BARE_1_0_A = Future { bound: None }, 0
end 0 = Ended, 0
take = Over, 0
* key one microsecond early $ SETUP 16 16 1
1250000 BARE_2_0_A = Kept { chains: 3 }, 1
1369999 KEYS_0_2 = Future { bound: Some(3) }, 1
end 0 = Ended, 1
take = Over, 1
* key at its first moment $ SETUP 16 16 1
1250000 BARE_2_0_A = Kept { chains: 3 }, 1
1370000 KEYS_0_2 = Keys, 1
end 0 = Ended, 1
take = 0 2/0 by 0 a, 1
take = Over, 1
* first release $ SETUP 16 16 1
1150000 DATA_1_0_HI = Kept { chains: 3 }, 1
1350000 DATA_3_0_YO = Kept { chains: 3 }, 2
end 0 = Ended, 2
take = 0 1/0 by 0 hi, 2
take = Over, 2
* gap key releases in arrival order $ SETUP 16 16 1
1350000 BARE_3_0_G = Kept { chains: 3 }, 1
1360000 BARE_2_0_G = Kept { chains: 3 }, 2
1550000 BARE_5_0_G = Kept { chains: 3 }, 3
1560000 BARE_4_0_G = Kept { chains: 3 }, 4
1650000 BARE_6_0_G = Kept { chains: 3 }, 5
1850000 KEYS_0_6 = Keys, 5
end 0 = Ended, 5
take = 0 3/0 by 0 g, 5
take = 1 2/0 by 0 g, 5
take = 2 5/0 by 0 g, 5
take = 3 4/0 by 0 g, 5
take = 4 6/0 by 0 g, 5
take = Over, 5
* slow chain rescues $ SETUP 16 16 1
1250000 BARE_2_0_A_WITH_AN_ALTERED_TAG = Kept { chains: 3 }, 1
1450000 KEYS_0_2 = Keys, 1
take = Empty, 1
1750000 KEYS_1_2 = Keys, 1
take = 0 2/0 by 1 a, 0
end 0 = Ended, 0
take = Over, 0
* both chains at once $ SETUP 16 16 1
1150000 BARE_1_0_A = Kept { chains: 3 }, 1
1650000 KEYS_0_1_AND_1_1 = Keys, 1
take = 0 1/0 by 0 a, 0
end 0 = Ended, 0
take = Over, 0
* late packet brings a key $ SETUP 16 16 1
1150000 BARE_1_0_A = Kept { chains: 3 }, 1
1850000 DATA_3_0_Z = Late, 1
end 0 = Ended, 1
take = 0 1/0 by 0 a, 1
take = Over, 1
* bad key changes nothing $ SETUP 16 16 1
1150000 BARE_1_0_A = Kept { chains: 3 }, 1
1350000 KEYS_0_1_ALTERED = BadKey { chain: ChainNo(0) }, 1
take = Empty, 1
1360000 KEYS_0_1 = Keys, 1
take = 0 1/0 by 0 a, 1
end 0 = Ended, 1
take = Over, 1
* bad key beside a good one $ SETUP 16 16 1
1150000 BARE_1_0_A = Kept { chains: 3 }, 1
1650000 KEYS_0_1_AND_1_1_ALTERED = BadKey { chain: ChainNo(1) }, 1
take = Empty, 1
1660000 KEYS_0_1 = Keys, 1
take = 0 1/0 by 0 a, 1
end 0 = Ended, 1
take = Over, 1
* least of two bad keys $ SETUP 16 16 1
1650000 KEYS_0_1_AND_1_1_BOTH_ALTERED = BadKey { chain: ChainNo(0) }, 0
end 0 = Ended, 0
take = Over, 0
* old key is not verified $ SETUP 16 16 1
1450000 KEYS_0_2 = Keys, 0
1460000 KEYS_0_2_OF_ZEROS = Keys, 0
1460000 KEYS_0_1_OF_ZEROS = Keys, 0
end 0 = Ended, 0
take = Over, 0
* last interval $ SETUP 16 16 1
1850000 BARE_8_0_E = Kept { chains: 3 }, 1
2350000 KEYS_0_8_AND_1_8 = Keys, 1
end 0 = Ended, 1
take = 0 8/0 by 0 e, 0
take = Over, 0
* three copies $ SETUP 16 16 1
1250000 BARE_2_0_A = Kept { chains: 3 }, 1
1250000 BARE_2_0_A = Kept { chains: 3 }, 2
1250000 BARE_2_0_A = Kept { chains: 3 }, 3
1450000 KEYS_0_2 = Keys, 1
take = 0 2/0 by 0 a, 1
take = Empty, 1
end 0 = Ended, 1
take = Over, 1
* second copy is right $ SETUP 16 16 1
1250000 BARE_2_0_A_WITH_THE_PAYLOAD_ALTERED = Kept { chains: 3 }, 1
1260000 BARE_2_0_A = Kept { chains: 3 }, 2
1450000 KEYS_0_2 = Keys, 2
take = 0 2/0 by 0 a, 2
take = Empty, 2
end 0 = Ended, 2
take = Over, 2
* proved copy is gone $ SETUP 2 2 1
1250000 BARE_2_0_A = Kept { chains: 3 }, 1
1250000 BARE_2_0_A = Kept { chains: 3 }, 2
1450000 KEYS_0_2 = Keys, 1
1460000 BARE_4_0_B = Kept { chains: 3 }, 2
end 0 = Ended, 2
take = 0 2/0 by 0 a, 2
take = Over, 2
* repeat after release $ SETUP 16 16 1
1250000 BARE_2_0_A = Kept { chains: 3 }, 1
1450000 KEYS_0_2 = Keys, 1
1460000 BARE_2_0_A = Repeat, 1
end 0 = Ended, 1
take = 0 2/0 by 0 a, 1
take = Over, 1
* repeat after another key $ SETUP 16 16 1
1250000 BARE_2_0_A = Kept { chains: 3 }, 1
1450000 KEYS_0_2 = Keys, 1
take = 0 2/0 by 0 a, 1
1570000 KEYS_0_3 = Keys, 1
1580000 BARE_2_0_A = Repeat, 1
1680000 KEYS_1_1 = Keys, 1
1580000 BARE_2_0_A = Repeat, 1
end 0 = Ended, 1
take = Over, 1
* late after all chains $ SETUP 16 16 1
1250000 BARE_2_0_A = Kept { chains: 3 }, 1
1750000 KEYS_0_2_AND_1_2 = Keys, 1
take = 0 2/0 by 0 a, 0
1260000 BARE_2_0_A = Late, 0
end 0 = Ended, 0
take = Over, 0
* full until all chains pass $ SETUP 1 1 1
1150000 BARE_1_0_A = Kept { chains: 3 }, 1
1160000 BARE_1_1_B = Full, 1
1350000 KEYS_0_1 = Keys, 1
take = 0 1/0 by 0 a, 1
1360000 BARE_3_0_C = Full, 1
1650000 KEYS_1_1 = Keys, 0
1660000 BARE_6_0_D = Kept { chains: 3 }, 1
end 0 = Ended, 1
take = Over, 1
* full packet brings a key $ SETUP 2 2 1
1150000 BARE_1_0_A = Kept { chains: 3 }, 1
1160000 BARE_1_1_B = Kept { chains: 3 }, 2
1350000 DATA_3_0_C = Full, 2
take = 0 1/0 by 0 a, 2
end 0 = Ended, 2
take = 1 1/1 by 0 b, 2
take = Over, 2
* forgery gives its place back $ SETUP 1 1 1
1350000 BARE_1_0_X = Kept { chains: 2 }, 1
1650000 DATA_6_0_D = Kept { chains: 3 }, 1
end 0 = Ended, 1
take = Over, 1
* forgery is gone with its own chains $ SETUP 1 1 1
1370000 BARE_2_0_X = Kept { chains: 2 }, 1
1750000 KEYS_1_2 = Keys, 0
1760000 BARE_7_0_A = Kept { chains: 3 }, 1
end 0 = Ended, 1
take = Over, 1
* key comes before its packet $ SETUP 16 16 1
1350000 DATA_3_0_YO = Kept { chains: 3 }, 1
1150000 DATA_1_0_HI = Kept { chains: 2 }, 2
1650000 KEYS_1_1 = Keys, 2
take = 0 1/0 by 1 hi, 1
take = Empty, 1
end 0 = Ended, 1
take = Over, 1
* over only at the end $ SETUP 16 16 1
take = Empty, 0
1150000 BARE_1_0_A = Kept { chains: 3 }, 1
take = Empty, 1
take = Empty, 1
end 0 = Ended, 1
take = Over, 1
* quota of two $ SETUP 4 2 1
1150000 BARE_1_0_A = Kept { chains: 3 }, 1
1150000 BARE_1_1_A = Kept { chains: 3 }, 2
1150000 BARE_1_2_A = Full, 2
1250000 BARE_2_0_B = Kept { chains: 3 }, 3
end 0 = Ended, 3
take = Over, 3
* quota counts held packets $ SETUP 4 2 1
1350000 BARE_3_0_A = Kept { chains: 3 }, 1
1350000 BARE_3_0_A = Kept { chains: 3 }, 2
1360000 BARE_3_1_Y = Full, 2
1570000 KEYS_0_3 = Keys, 1
1570000 BARE_3_1_Y = Kept { chains: 2 }, 2
1570000 BARE_3_2_Z = Full, 2
end 0 = Ended, 2
take = 0 3/0 by 0 a, 2
take = Over, 2
* order of verdicts $ SETUP 16 16 1
1150000 DATA_3_0_Z_CUT = Malformed, 0
1150000 BARE_1_0_A_OF_STREAM_A8_AND_INTERVAL_9 = Foreign { stream: StreamId(168) }, 0
1150000 BARE_1_0_A_OF_INTERVAL_9 = Misfit, 0
1350000 KEYS_0_2_ALTERED = Future { bound: Some(3) }, 0
1850000 DATA_3_0_Z_WITH_AN_ALTERED_KEY = BadKey { chain: ChainNo(0) }, 0
1850000 KEYS_0_1 = Keys, 0
1850000 BARE_1_0_A = Late, 0
take = Empty, 0
* misfits $ SETUP 16 16 1
1150000 BARE_1_0_A_OF_STREAM_A8 = Foreign { stream: StreamId(168) }, 0
1950000 BARE_1_0_A_OF_INTERVAL_9 = Misfit, 0
1950000 KEYS_2_1_OF_ZEROS = Misfit, 0
1950000 KEYS_0_9_OF_ZEROS = Misfit, 0
1350000  = Malformed, 0
1350000 KEYS_0_2 = Future { bound: Some(3) }, 0
* repeat though full $ SETUP 1 1 1
1250000 BARE_2_0_A = Kept { chains: 3 }, 1
1450000 KEYS_0_2 = Keys, 1
1460000 BARE_2_0_A = Repeat, 1
* over after both ends $ SETUP 16 16 2
end 0 = Ended, 0
end 0 = Ended, 0
end 2 = Ended, 0
end 255 = Ended, 0
take = Empty, 0
end 1 = Ended, 0
take = Over, 0
* short tags $ TAGS_OF_10 16 16 1
1150000 TWO_DATA_1_0_HI = Kept { chains: 3 }, 1
1150000 TWO_DATA_1_0_HI_WITH_TAGS_OF_11_BYTES = Misfit, 1
* version 1 under version 2 $ TAGS_OF_10 16 16 1
1150000 DATA_1_0_HI = Misfit, 0
1450000 KEYS_0_2 = Misfit, 0
* first release in version 2 $ TAGS_OF_10 16 16 1
1150000 TWO_DATA_1_0_HI = Kept { chains: 3 }, 1
1350000 TWO_DATA_3_0_YO = Kept { chains: 3 }, 2
end 0 = Ended, 2
take = 0 1/0 by 0 hi, 2
take = Over, 2
* slow chain rescues in version 2 $ TAGS_OF_10 16 16 1
1250000 TWO_BARE_2_0_A_WITH_AN_ALTERED_TAG = Kept { chains: 3 }, 1
1450000 TWO_KEYS_0_2 = Keys, 1
take = Empty, 1
1750000 TWO_KEYS_1_2 = Keys, 1
take = 0 2/0 by 1 a, 0
end 0 = Ended, 0
take = Over, 0
* long tag is compared whole $ TAGS_OF_32 16 16 1
1150000 TWO_BARE_1_0_A_WITH_LONG_TAGS = Kept { chains: 3 }, 1
1150000 TWO_BARE_1_1_B_WITH_AN_ALTERED_LAST_BYTE = Kept { chains: 3 }, 2
1350000 TWO_KEYS_0_1 = Keys, 2
take = 0 1/0 by 0 a, 2
take = Empty, 2
";
